// Terminals that are read from the front, and what is counted with them.
ghost use Rattle.std.specs.Prelude.{◌≡◌, ◌≤◌, suc, true, false, List, [], ◌∷◌};
ghost use Rattle.shim_syntax.specs.declared.limits.Many.TheVariants as m;
ghost use Rattle.shim_syntax.specs.Terminals.{Terminal as ReadTerminal, first};
ghost use Rattle.shim_syntax.specs.Limits.{Nesting, Count};
ghost use Rattle.shim_syntax.specs.Grammar as grammar;
ghost use Rattle.shim_grammar.specs.Machine.{Unwanted, Past};
ghost use Rattle.shim_parser.specs.TokenView.{token_view, token_views};
ghost use Rattle.shim_parser.specs.ReaderViews.{Proper, FitsName, is_last, Blames, CountsWithin, reader_with};

use crate::fault::ParseFault;
use crate::terminal::Terminal;
use crate::token::Token;
use shim_lexer::LexFault;
use shim_syntax::{MOST_NESTING, Many};
use std::marker::Model;

/// The terminals that are left to read, with the counts of what was read. Contracts see them as a
/// `ReaderView`.
#[derive(Drop)]
pub(crate) struct Reader<'a> {
    all: &'a [Token<'a>],
    at: usize,
    operators: u16,
    locals: u16,
    deepest: u16,
    two: bool,
}

impl<'a> Model for Reader<'a> {
    ghost use Rattle.std.specs.Prelude.{drop, ◌≤◌};
    ghost use Rattle.shim_parser.specs.TokenView.{token_views};
    ghost use Rattle.shim_parser.specs.ReaderViews.{ReaderView, Proper};

    ghost Value = { ReaderView };

    ghost view = { λ r. record {
      rest = token_views (drop r.at r.all.now);
      counts = record { operators = r.operators; locals = r.locals; deepest = r.deepest; two = r.two };
    } };

    ghost invariant = { λ r. Proper (token_views (drop r.at r.all.now)) × (r.operators ≤ 256) × (r.locals ≤ 64) × (r.deepest ≤ 64) };
}

impl<'a> Reader<'a> {
    pub(crate) fn new(all: &'a [Token<'a>]) -> Reader<'a>
        requires { Proper (token_views all.now) }
        ensures { result ≡ record { rest = token_views all.now; counts = grammar.nothing_read } }
    {
        Reader {
            all,
            at: 0,
            operators: 0,
            locals: 0,
            deepest: 0,
            two: false,
        }
    }

    /// The next terminal.
    pub(crate) fn peek(&self) -> Token<'a>
        ensures is { token_view result ≡ first self.now.rest }
        ensures named { FitsName (token_view result) }
        ensures last { is_last (first self.now.rest) ≡ true → self.now.rest ≡ first self.now.rest ∷ [] }
    {
        self.all[self.at]
    }

    /// Shows that something is left, and does nothing.
    pub(crate) fn some_left(&self)
        ensures { (r : List ReadTerminal) × (self.now.rest ≡ first self.now.rest ∷ r) }
    {
        let _at = self.at; // brings the invariant into the proof
    }

    /// Takes the next terminal, which isn't the last.
    pub(crate) fn advance(&mut self)
        requires { is_last (first self.old.rest) ≡ false }
        ensures { self.old ≡ record { rest = first self.old.rest ∷ self.new.rest; counts = self.new.counts } }
    {
        self.at += 1;
    }

    /// The fault where the next terminal is wanted by nothing.
    pub(crate) fn unexpected(&self) -> ParseFault
        ensures { Blames result Unwanted (first self.now.rest) }
    {
        let token = self.peek();
        match token.what {
            Terminal::Broken(kind) => ParseFault::Lex(LexFault {
                at: token.at,
                line: token.line,
                kind,
            }),
            _ => ParseFault::Unexpected {
                at: token.at,
                line: token.line,
            },
        }
    }

    fn too_many(&self, what: Many) -> ParseFault
        ensures { Blames result (Past (Count what)) (first self.now.rest) }
    {
        let token = self.peek();
        ParseFault::TooMany {
            what,
            line: token.line,
        }
    }

    /// Counts the level of the thing that begins with the next terminal, or gives a fault if it is too deep.
    pub(crate) fn enter(&mut self, level: u16) -> Result<(), ParseFault>
        ensures { CountsWithin Nesting level (grammar.at_level level) result self.old self.new }
    {
        if level > MOST_NESTING {
            let token = self.peek();
            return Err(ParseFault::TooDeep { line: token.line });
        }
        if self.deepest < level {
            self.deepest = level;
        }
        Ok(())
    }

    /// Gives a fault if the limit doesn't allow this number, which the thing that begins with the next terminal
    /// has among its kind.
    pub(crate) fn number(&self, what: Many, n: u16) -> Result<(), ParseFault>
        ensures { CountsWithin (Count what) n (λ w. w) result self.now self.now }
    {
        if n > what.most() {
            return Err(self.too_many(what));
        }
        Ok(())
    }

    /// Counts the next terminal as an operator, or gives a fault if the limit doesn't allow one more.
    pub(crate) fn count_operator(&mut self) -> Result<(), ParseFault>
        ensures { CountsWithin (Count m.Operators) (suc self.old.counts.operators) grammar.with_operator result self.old self.new }
    {
        self.number(Many::Operators, self.operators + 1)?;
        self.operators += 1;
        Ok(())
    }

    /// Counts the next terminal as a declared name, or gives a fault if the limit doesn't allow one more.
    pub(crate) fn count_local(&mut self) -> Result<(), ParseFault>
        ensures { CountsWithin (Count m.Locals) (suc self.old.counts.locals) grammar.with_local result self.old self.new }
    {
        self.number(Many::Locals, self.locals + 1)?;
        self.locals += 1;
        Ok(())
    }

    /// Notes that the text is one of version 2.
    pub(crate) fn begin_version_2(&mut self)
        ensures { self.new ≡ reader_with grammar.in_version_2 self.old }
    {
        self.two = true;
    }

    /// Whether the text is one of version 2.
    pub(crate) fn is_version_2(&self) -> bool
        ensures { result ≡ self.now.counts.two }
    {
        self.two
    }

    /// Sets the count of operators to 0, since an expression begins.
    pub(crate) fn begin_expression(&mut self)
        ensures { self.new ≡ reader_with grammar.new_expression self.old }
    {
        self.operators = 0;
    }

    /// Sets the count of declarations to 0, since a function begins.
    pub(crate) fn begin_function(&mut self)
        ensures { self.new ≡ reader_with grammar.new_function self.old }
    {
        self.locals = 0;
    }

    /// A body begins; the answer is the deepest level outside of it.
    pub(crate) fn begin_body(&mut self) -> u16
        ensures outside { result ≡ self.old.counts.deepest }
        ensures body { self.new ≡ reader_with grammar.new_body self.old }
        ensures shallow { result ≤ 64 }
    {
        let outside = self.deepest;
        self.deepest = 0;
        outside
    }

    /// The deepest level that counts if the block of this body turns out to be the first branch of a fork of
    /// this level.
    pub(crate) fn as_branch(&self, level: u16) -> u16
        requires { level ≤ 65 }
        ensures { result ≡ grammar.as_branch level self.now.counts }
    {
        level.max(self.deepest + 1)
    }

    /// A body ends, outside of which this is the deepest level.
    pub(crate) fn end_body(&mut self, outside: u16)
        requires { outside ≤ 64 }
        ensures { self.new ≡ reader_with (grammar.behind_body outside) self.old }
    {
        self.deepest = self.deepest.max(outside);
    }
}

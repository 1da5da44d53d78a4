// The parentheses of a `for`.
ghost use Rattle.std.specs.Prelude.{◌≡◌, ◌≤◌, [], ◌∷◌, suc, ◌+◌, IfOk};
ghost use Rattle.shim_syntax.specs.declared.tree.What.TheVariants.{Assign};
ghost use Rattle.shim_syntax.specs.Limits.{limits};
ghost use Rattle.shim_syntax.specs.Grammar.{IsFirst, IsTest, IsStep};
ghost use Rattle.shim_grammar.specs.Machine.{Fixed, Expression, Operators, First, Test, Step};
ghost use Rattle.shim_grammar.specs.declared.punctuation.Punctuation.TheVariants as punctuation;
ghost use Rattle.shim_parser.specs.Headers.{IsValueAfter, IsHeader};
ghost use Rattle.shim_parser.specs.ReaderViews.{Reads};

use crate::declare::declared;
use crate::expr::expression_before;
use crate::fault::ParseFault;
use crate::for_parts::ForParts;
use crate::name_value::Declared;
use crate::parts::{alone, punctuation};
use crate::reader::Reader;
use crate::terminal::Terminal;
use shim_base::{List, Name, NoMemory, Sign};
use shim_grammar::Punctuation;
use shim_syntax::{Expr, Sort, Stmt, What};
use std::alloc::Global;

/// The `=` of an assignment, its value, and the punctuation that must come after the value.
fn value_after_equal(
    alloc: Global,
    tokens: &mut Reader,
    level: u16,
    behind: Punctuation,
) -> Result<Expr, ParseFault>
    requires { level ≤ 64 }
    ensures { Reads (IsValueAfter behind level) (Fixed punctuation.Equal ∷ Expression level ∷ Operators level ∷ Fixed behind ∷ []) result tokens.old tokens.new }
{
    punctuation(tokens, Punctuation::Equal)?;
    expression_before(alloc, tokens, level, behind)
}

/// A list of one assignment, which stands on this line.
fn assignment(alloc: Global, line: u32, name: Name, value: Expr) -> Result<List<Stmt>, NoMemory>
    ensures { IfOk result (λ list. list ≡ record { line = line; what = Assign name value } ∷ []) }
{
    let what = What::Assign(name, value);
    alone(alloc, Stmt { line, what })
}

/// The first statement of a `for`, with its semicolon. The statement, if there is one, has this level.
fn first_statement(alloc: Global, tokens: &mut Reader, level: u16) -> Result<List<Stmt>, ParseFault>
    ensures { Reads (IsFirst limits level) (First level ∷ []) result tokens.old tokens.new }
{
    let token = tokens.peek();
    match token.what {
        Terminal::Sign(Sign::Semicolon) => {
            tokens.advance();
            Ok(List::new(alloc))
        }
        Terminal::Sort(Sort::Value(ty)) => {
            tokens.enter(level)?;
            tokens.advance();
            let Declared { name, value } = declared(alloc, tokens, level)?;
            punctuation(tokens, Punctuation::Semicolon)?;
            let what = What::Declare(ty, name, value);
            Ok(alone(
                alloc,
                Stmt {
                    line: token.line,
                    what,
                },
            )?)
        }
        Terminal::Name(text) => {
            tokens.enter(level)?;
            tokens.advance();
            let value = value_after_equal(alloc, tokens, level, Punctuation::Semicolon)?;
            let name = Name::new(alloc, text)?;
            Ok(assignment(alloc, token.line, name, value)?)
        }
        _ => Err(tokens.unexpected()),
    }
}

/// The test of a `for`, with its semicolon.
fn test(alloc: Global, tokens: &mut Reader, level: u16) -> Result<Option<Expr>, ParseFault>
    requires { level ≤ 64 }
    ensures { Reads (IsTest limits level) (Test level ∷ []) result tokens.old tokens.new }
{
    if let Terminal::Sign(Sign::Semicolon) = tokens.peek().what {
        tokens.advance();
        return Ok(None);
    }
    let test = expression_before(alloc, tokens, level, Punctuation::Semicolon)?;
    Ok(Some(test))
}

/// The step of a `for`, with the right parenthesis. The step, if there is one, has this level.
fn step(alloc: Global, tokens: &mut Reader, level: u16) -> Result<List<Stmt>, ParseFault>
    ensures { Reads (IsStep limits level) (Step level ∷ []) result tokens.old tokens.new }
{
    let token = tokens.peek();
    match token.what {
        Terminal::Sign(Sign::RightParen) => {
            tokens.advance();
            Ok(List::new(alloc))
        }
        Terminal::Name(text) => {
            tokens.enter(level)?;
            tokens.advance();
            let value = value_after_equal(alloc, tokens, level, Punctuation::RightParen)?;
            let name = Name::new(alloc, text)?;
            Ok(assignment(alloc, token.line, name, value)?)
        }
        _ => Err(tokens.unexpected()),
    }
}

/// The parentheses of a `for` of this level, with what stands in them.
pub(crate) fn header(alloc: Global, tokens: &mut Reader, level: u16) -> Result<ForParts, ParseFault>
    requires { level ≤ 64 }
    ensures { Reads (IsHeader level) (Fixed punctuation.LeftParen ∷ First (suc level) ∷ Test level ∷ Step (suc level) ∷ []) result tokens.old tokens.new }
{
    punctuation(tokens, Punctuation::LeftParen)?;
    let first = first_statement(alloc, tokens, level + 1)?;
    let test = test(alloc, tokens, level)?;
    let step = step(alloc, tokens, level + 1)?;
    Ok(ForParts { first, test, step })
}

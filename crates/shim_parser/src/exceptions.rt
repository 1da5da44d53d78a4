// What stands after the exception of a `throw` and of a `catch`. Version 2 alone allows a number or a
// variable there.
ghost use Rattle.std.specs.Prelude.{◌≤◌, [], ◌∷◌};
ghost use Rattle.shim_base.specs.declared.token.Sign.TheVariants as g;
ghost use Rattle.shim_syntax.specs.Terminals.{first};
ghost use Rattle.shim_syntax.specs.Limits.{limits};
ghost use Rattle.shim_syntax.specs.Grammar.{IsCatchRest, IsThrowRest};
ghost use Rattle.shim_grammar.specs.Machine.{CatchRest, ThrowRest};
ghost use Rattle.shim_parser.specs.Statements.{IsSignAt};
ghost use Rattle.shim_parser.specs.ReaderViews.{Reads};

use crate::expr::expression_before;
use crate::fault::ParseFault;
use crate::parts::punctuation;
use crate::reader::Reader;
use crate::terminal::Terminal;
use shim_base::{Name, Sign};
use shim_grammar::Punctuation;
use shim_syntax::Expr;
use std::alloc::Global;

/// The number of a `throw`, where it has one, with the semicolon.
pub(crate) fn throw_rest(
    alloc: Global,
    tokens: &mut Reader,
    level: u16,
) -> Result<Option<Expr>, ParseFault>
    requires { level ≤ 64 }
    ensures { Reads (IsThrowRest limits level) (ThrowRest level ∷ []) result tokens.old tokens.new }
{
    match tokens.peek().what {
        Terminal::Sign(Sign::Semicolon) => {
            tokens.advance();
            Ok(None)
        }
        Terminal::Sign(Sign::LeftParen) => thrown_number(alloc, tokens, level),
        _ => Err(tokens.unexpected()),
    }
}

// The number of a `throw` in its parentheses, with the semicolon.
fn thrown_number(alloc: Global, tokens: &mut Reader, level: u16) -> Result<Option<Expr>, ParseFault>
    requires level { level ≤ 64 }
    requires paren { IsSignAt g.LeftParen (first tokens.old.rest) }
    ensures { Reads (IsThrowRest limits level) (ThrowRest level ∷ []) result tokens.old tokens.new }
{
    if !tokens.is_version_2() {
        return Err(tokens.unexpected());
    }
    tokens.advance();
    let number = expression_before(alloc, tokens, level, Punctuation::RightParen)?;
    punctuation(tokens, Punctuation::Semicolon)?;
    Ok(Some(number))
}

/// The variable of a handler, where it has one, up to the handler's block, with its left brace.
pub(crate) fn catch_rest(alloc: Global, tokens: &mut Reader) -> Result<Option<Name>, ParseFault>
    ensures { Reads (IsCatchRest limits) (CatchRest ∷ []) result tokens.old tokens.new }
{
    match tokens.peek().what {
        Terminal::Sign(Sign::RightParen) => {
            tokens.advance();
            punctuation(tokens, Punctuation::LeftBrace)?;
            Ok(None)
        }
        Terminal::Name(text) => {
            if !tokens.is_version_2() {
                return Err(tokens.unexpected());
            }
            tokens.count_local()?;
            tokens.advance();
            punctuation(tokens, Punctuation::RightParen)?;
            punctuation(tokens, Punctuation::LeftBrace)?;
            Ok(Some(Name::new(alloc, text)?))
        }
        _ => Err(tokens.unexpected()),
    }
}

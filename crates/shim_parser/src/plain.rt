// The rest of statements that hold no other, after their first terminals.
ghost use Rattle.std.specs.Prelude.{◌≡◌, ◌≤◌, [], ◌∷◌};
ghost use Rattle.shim_base.specs.declared.token.Keyword.TheVariants as k;
ghost use Rattle.shim_grammar.specs.Machine.{AfterEqual, AfterNext, Expression, Fixed, Operators, ThrowRest, Word};
ghost use Rattle.shim_grammar.specs.declared.punctuation.Punctuation.TheVariants as punctuation;
ghost use Rattle.shim_parser.specs.Statements.{IsAssigned, IsKeyed};
ghost use Rattle.shim_parser.specs.ReaderViews.{Reads};

use crate::exceptions::throw_rest;
use crate::expr::expression_before;
use crate::fault::ParseFault;
use crate::parts::{name, name_before};
use crate::reader::Reader;
use crate::terminal::Terminal;
use shim_base::{Keyword, Name, Sign};
use shim_grammar::Punctuation;
use shim_syntax::What;
use std::alloc::Global;

/// The rest of an assignment after the name `target` and `=`, with the semicolon.
pub(crate) fn assignment(
    alloc: Global,
    tokens: &mut Reader,
    target: Name,
    level: u16,
) -> Result<What, ParseFault>
    requires { level ≤ 64 }
    ensures { Reads (IsAssigned target level) (AfterEqual level ∷ []) result tokens.old tokens.new }
{
    match tokens.peek().what {
        Terminal::Key(Keyword::Next) => {
            tokens.advance();
            let source = name_before(alloc, tokens, Punctuation::Semicolon)?;
            Ok(What::AssignNext(target, source))
        }
        Terminal::Key(Keyword::Get) => {
            tokens.advance();
            let stream = name_before(alloc, tokens, Punctuation::Semicolon)?;
            Ok(What::Get(target, stream))
        }
        _ => {
            let value = expression_before(alloc, tokens, level, Punctuation::Semicolon)?;
            Ok(What::Assign(target, value))
        }
    }
}

/// The rest of a `next` statement after the word `next`, with the semicolon.
pub(crate) fn next(alloc: Global, tokens: &mut Reader, level: u16) -> Result<What, ParseFault>
    requires { level ≤ 64 }
    ensures { Reads (IsKeyed k.Next level) (Word ∷ AfterNext level ∷ []) result tokens.old tokens.new }
{
    let variable = name(alloc, tokens)?;
    match tokens.peek().what {
        Terminal::Sign(Sign::Semicolon) => {
            tokens.advance();
            Ok(What::Next(variable))
        }
        Terminal::Sign(Sign::Equal) => {
            tokens.advance();
            let value = expression_before(alloc, tokens, level, Punctuation::Semicolon)?;
            Ok(What::NextAssign(variable, value))
        }
        _ => Err(tokens.unexpected()),
    }
}

/// The rest of a `put` statement after the word `put`, with the semicolon.
pub(crate) fn put(alloc: Global, tokens: &mut Reader, level: u16) -> Result<What, ParseFault>
    requires { level ≤ 64 }
    ensures { Reads (IsKeyed k.Put level)
        (Word ∷ Fixed punctuation.Comma ∷ Expression level ∷ Operators level ∷ Fixed punctuation.Semicolon ∷ []) result tokens.old tokens.new }
{
    let stream = name_before(alloc, tokens, Punctuation::Comma)?;
    let value = expression_before(alloc, tokens, level, Punctuation::Semicolon)?;
    Ok(What::Put(stream, value))
}

/// The rest of a `throw` statement after the word `throw`, with the semicolon.
pub(crate) fn throw(alloc: Global, tokens: &mut Reader, level: u16) -> Result<What, ParseFault>
    requires { level ≤ 64 }
    ensures { Reads (IsKeyed k.Throw level) (Word ∷ ThrowRest level ∷ []) result tokens.old tokens.new }
{
    let exception = name(alloc, tokens)?;
    let number = throw_rest(alloc, tokens, level)?;
    Ok(What::Throw(exception, number))
}

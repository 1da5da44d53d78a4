// The arguments of a call.
ghost use Rattle.std.specs.Prelude.{◌≡◌, ◌≤◌, false, [], ◌∷◌, IfOk};
ghost use Rattle.shim_syntax.specs.Terminals.{first};
ghost use Rattle.shim_syntax.specs.Limits.{limits};
ghost use Rattle.shim_syntax.specs.Grammar.{IsArguments};
ghost use Rattle.shim_grammar.specs.Machine.{Argument, Arguments, Fixed, is_operator};
ghost use Rattle.shim_grammar.specs.declared.punctuation.Punctuation.TheVariants.{Semicolon};
ghost use Rattle.shim_parser.specs.Calls.{IsArgument, IsCall};
ghost use Rattle.shim_parser.specs.ReaderViews.{Reads};

use crate::expr::{begins_operand, expression};
use crate::fault::ParseFault;
use crate::parts::punctuation;
use crate::reader::Reader;
use crate::terminal::Terminal;
use shim_base::{List, Sign};
use shim_grammar::Punctuation;
use shim_syntax::{Expr, Many};
use std::alloc::Global;

/// The argument of this number.
fn argument(alloc: Global, tokens: &mut Reader, n: u16, level: u16) -> Result<Expr, ParseFault>
    requires { level ≤ 64 }
    ensures reads { Reads (IsArgument n level) (Argument level n ∷ []) result tokens.old tokens.new }
    ensures stops { IfOk result (λ _. is_operator (first tokens.new.rest) ≡ false) }
{
    if !begins_operand(tokens) {
        return Err(tokens.unexpected());
    }
    tokens.number(Many::Arguments, n)?;
    expression(alloc, tokens, level)
}

/// The arguments after the left parenthesis of a call, with the right one.
fn arguments(alloc: Global, tokens: &mut Reader, level: u16) -> Result<List<Expr>, ParseFault>
    requires { level ≤ 64 }
    ensures { Reads (IsArguments limits level) (Arguments level ∷ []) result tokens.old tokens.new }
{
    let mut all = List::new(alloc);
    if let Terminal::Sign(Sign::RightParen) = tokens.peek().what {
        tokens.advance();
        return Ok(all);
    }
    let first = argument(alloc, tokens, 1, level)?;
    all.push(first)?;
    let mut count = 1;
    'more: loop {
        match tokens.peek().what {
            Terminal::Sign(Sign::RightParen) => {
                tokens.advance();
                return Ok(all);
            }
            Terminal::Sign(Sign::Comma) => {
                tokens.advance();
                let next = argument(alloc, tokens, count + 1, level)?;
                all.push(next)?;
                count += 1;
            }
            _ => return Err(tokens.unexpected()),
        }
    }
}

/// The arguments of a call after the left parenthesis, the right parenthesis, and the semicolon.
pub(crate) fn call(alloc: Global, tokens: &mut Reader, level: u16) -> Result<List<Expr>, ParseFault>
    requires { level ≤ 64 }
    ensures { Reads (IsCall level) (Arguments level ∷ Fixed Semicolon ∷ []) result tokens.old tokens.new }
{
    let all = arguments(alloc, tokens, level)?;
    punctuation(tokens, Punctuation::Semicolon)?;
    Ok(all)
}

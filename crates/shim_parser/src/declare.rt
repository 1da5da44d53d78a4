// Declared names.
ghost use Rattle.std.specs.Prelude.{◌≤◌, [], ◌∷◌};
ghost use Rattle.shim_syntax.specs.Limits.{limits};
ghost use Rattle.shim_syntax.specs.Grammar.{IsDeclarations};
ghost use Rattle.shim_grammar.specs.Machine.{Declarations, Declaration};
ghost use Rattle.shim_parser.specs.Declares.{IsDeclaredHere};
ghost use Rattle.shim_parser.specs.ReaderViews.{Reads};

use crate::expr::expression;
use crate::fault::ParseFault;
use crate::name_value::Declared;
use crate::reader::Reader;
use crate::terminal::Terminal;
use shim_base::{List, Name, Sign, Ty};
use shim_syntax::{Stmt, What};
use std::alloc::Global;

/// A declared name, with its first value where it has one.
pub(crate) fn declared(
    alloc: Global,
    tokens: &mut Reader,
    level: u16,
) -> Result<Declared, ParseFault>
    requires { level ≤ 64 }
    ensures many { Reads (IsDeclaredHere level) (Declarations level ∷ []) result tokens.old tokens.new }
    ensures one { Reads (IsDeclaredHere level) (Declaration level ∷ []) result tokens.old tokens.new }
{
    let Terminal::Name(text) = tokens.peek().what else {
        return Err(tokens.unexpected());
    };
    tokens.count_local()?;
    tokens.advance();
    let name = Name::new(alloc, text)?;
    if let Terminal::Sign(Sign::Equal) = tokens.peek().what {
        tokens.advance();
        let value = expression(alloc, tokens, level)?;
        return Ok(Declared {
            name,
            value: Some(value),
        });
    }
    Ok(Declared { name, value: None })
}

/// The declared names that follow a type on this line, with their first values and the semicolon.
pub(crate) fn declarations(
    alloc: Global,
    tokens: &mut Reader,
    line: u32,
    ty: Ty,
    level: u16,
) -> Result<List<Stmt>, ParseFault>
    requires { level ≤ 64 }
    ensures { Reads (IsDeclarations limits level ty line) (Declarations level ∷ []) result tokens.old tokens.new }
{
    let mut all = List::new(alloc);
    'names: loop {
        let Declared { name, value } = declared(alloc, tokens, level)?;
        all.push(Stmt {
            line,
            what: What::Declare(ty, name, value),
        })?;
        match tokens.peek().what {
            Terminal::Sign(Sign::Comma) => tokens.advance(),
            Terminal::Sign(Sign::Semicolon) => {
                tokens.advance();
                return Ok(all);
            }
            _ => return Err(tokens.unexpected()),
        }
    }
}

// A text, cut into its terminals.
ghost use Rattle.std.specs.Prelude.{◌≤◌, length, IfOk};
ghost use Rattle.shim_syntax.specs.Terminals.{IsRead};
ghost use Rattle.shim_parser.specs.Cutting.{IsCut};
ghost use Rattle.shim_parser.specs.TokenView.{token_views};

use crate::terminal::{Terminal, terminal_of};
use crate::token::Token;
use crate::version_two::{begins_two, see_types};
use shim_base::NoMemory;
use shim_lexer::{Lexer, line_feeds};
use std::alloc::Global;

/// Cuts a text into its terminals, each as its version sees it: the last one is the end of the text, or
/// the fault that ends the cutting.
pub(crate) fn tokens_of(alloc: Global, text: &[u8]) -> Result<Vec<Token<'_>>, NoMemory>
    requires { length text.now ≤ 1048576 }
    ensures { IfOk result (λ tokens. IsRead text.now (token_views tokens.items)) }
{
    let mut tokens = cut(alloc, text)?;
    if begins_two(&tokens) {
        see_types(&mut tokens);
    }
    Ok(tokens)
}

// Cuts a text into its terminals, each as version 1 sees it.
fn cut(alloc: Global, text: &[u8]) -> Result<Vec<Token<'_>>, NoMemory>
    requires { length text.now ≤ 1048576 }
    ensures { IfOk result (λ tokens. IsCut text.now (token_views tokens.items)) }
{
    let mut lexer = Lexer::new(text);
    let mut tokens = Vec::new(alloc);
    'tokens: loop {
        match lexer.next() {
            Ok(Some(token)) => {
                tokens.push(Token {
                    what: terminal_of(token.kind, &text[token.at..token.past]),
                    at: token.at,
                    line: token.line,
                })?;
            }
            Ok(None) => {
                tokens.push(Token {
                    what: Terminal::End,
                    at: text.len(),
                    line: 1 + line_feeds(text),
                })?;
                return Ok(tokens);
            }
            Err(fault) => {
                tokens.push(Token {
                    what: Terminal::Broken(fault.kind),
                    at: fault.at,
                    line: fault.line,
                })?;
                return Ok(tokens);
            }
        }
    }
}

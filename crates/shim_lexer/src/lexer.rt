// A text that is cut into its tokens, one at a time.
ghost use Rattle.std.specs.Prelude.{◌≡◌, ◌≤◌, ◌+◌, length, None};
ghost use Rattle.shim_base.specs.Tokens.{start};
ghost use Rattle.shim_lexer.specs.Lexing.{AnswersNext, Finds, IsInText};

use crate::bytes::line_feeds;
use crate::scanner::{Scanned, scan};
use crate::token::{LexFault, Token};
use std::marker::Model;

/// Reads the tokens of a text from its front. Contracts see it as a `Lexing`, a record of `specs/`.
#[derive(Debug, Drop)]
pub struct Lexer<'a> {
    text: &'a [u8],
    at: usize,
    line: u32,
    fault: Option<LexFault>,
}

impl<'a> Model for Lexer<'a> {
    ghost use Rattle.std.specs.Prelude.{◌≤◌, ◌+◌, length};
    ghost use Rattle.shim_lexer.specs.Lexing.{Lexing, fault_kept};

    ghost Value = { Lexing };

    ghost view = { λ lexer. record {
      text = lexer.text.now;
      place = record { at = lexer.at; line = lexer.line };
      fault = fault_kept lexer.fault;
    } };

    ghost invariant = { λ lexer. (lexer.at ≤ length lexer.text.now)
        × (length lexer.text.now ≤ 1048576)
        × (lexer.line ≤ 1 + lexer.at) };
}

impl<'a> Lexer<'a> {
    /// A lexer at the front of this text.
    pub fn new(text: &'a [u8]) -> Lexer<'a>
        requires { length text.now ≤ 1048576 }
        ensures { result ≡ record { text = text.now; place = start; fault = None } }
    {
        Lexer {
            text,
            at: 0,
            line: 1,
            fault: None,
        }
    }

    /// The next token; `None` where only spacing and comments are left. A fault is answered again
    /// from then on.
    pub fn next(&mut self) -> Result<Option<Token>, LexFault>
        ensures { AnswersNext self.old.fault self.old self.new result }
    {
        if let Some(fault) = self.fault {
            return Err(fault);
        }
        let found = token_from(self.text, self.at, self.line);
        match found {
            Ok(Some(token)) => {
                self.at = token.past;
                self.line = token.line;
            }
            Ok(None) => {
                let (_, rest) = self.text.split_at(self.at);
                self.line += line_feeds(rest);
                self.at = self.text.len();
            }
            Err(fault) => {
                self.at = fault.at;
                self.line = fault.line;
                self.fault = Some(fault);
            }
        }
        found
    }
}

// What comes after the spacing and the comments at a place of the text: a token, the end, or a fault.
fn token_from(text: &[u8], from: usize, first_line: u32) -> Result<Option<Token>, LexFault>
    requires within { from ≤ length text.now }
    requires short { length text.now ≤ 1048576 }
    requires lines { first_line ≤ 1 + from }
    ensures finds { Finds text.now (record { at = from; line = first_line }) result }
    ensures in_text { IsInText text.now result }
{
    let mut at = from;
    let mut line = first_line;
    'passing: loop {
        let (_, rest) = text.split_at(at);
        match scan(rest) {
            Scanned::End => return Ok(None),
            Scanned::Passed(len) => {
                let (over, _) = rest.split_at(len);
                line += line_feeds(over);
                at += len;
            }
            Scanned::Token(kind, len) => {
                return Ok(Some(Token {
                    kind,
                    at,
                    past: at + len,
                    line,
                }));
            }
            Scanned::Fault(kind) => return Err(LexFault { at, line, kind }),
        }
    }
}

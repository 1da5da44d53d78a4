// Laws of the definitions.
ghost use Rattle.std.specs.Prelude.{List, Option};
ghost use Rattle.shim_base.specs.Tokens.{Token, Fault, Cuts};
ghost use Rattle.shim_lexer.specs.Lexing.{Lexing, Run, unread};

/// The answers of `next` from any place on, one after the other, are the tokens into which the text
/// is cut from there on, up to its end or to the fault. By the law of `shim_base` a text is cut in exactly one
/// way.
pub fn answers_are_the_cutting()
    ensures { (lexing : Lexing) (tokens : List Token) (end : Option Fault) → Run lexing tokens end → Cuts lexing.place (unread lexing) tokens end }
{}

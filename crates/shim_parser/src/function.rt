// Functions.
ghost use Rattle.std.specs.Prelude.{◌≡◌, ◌≤◌, [], ◌∷◌};
ghost use Rattle.shim_grammar.specs.Machine as machine;
ghost use Rattle.shim_grammar.specs.Machine.{Block, Fixed, Parameter, Parameters, Thrown, Word};
ghost use Rattle.shim_grammar.specs.declared.punctuation.Punctuation.TheVariants as punctuation;
ghost use Rattle.shim_syntax.specs.Terminals.{first};
ghost use Rattle.shim_syntax.specs.Grammar as grammar;
ghost use Rattle.shim_parser.specs.Functions as pieces;
ghost use Rattle.shim_parser.specs.Functions.{IsParameter, IsParameters, IsThrown, IsThrowsHere, IsFunctionAfter, AreAll};
ghost use Rattle.shim_parser.specs.ReaderViews.{Reads};

use crate::fault::ParseFault;
use crate::parts::{name, name_before, punctuation};
use crate::reader::Reader;
use crate::stmt::block;
use crate::terminal::Terminal;
use shim_base::{Keyword, List, Name, Sign};
use shim_grammar::Punctuation;
use shim_syntax::{Function, Many, Param, Sort};
use std::alloc::Global;

/// Whether the next terminal is the `&` of a parameter.
fn is_reference(tokens: &Reader) -> bool
    ensures { result ≡ pieces.is_ampersand (first tokens.now.rest) }
{
    match tokens.peek().what {
        Terminal::Sign(Sign::Amp) => true,
        _ => false,
    }
}

/// Whether the next terminal is a comma.
fn is_comma(tokens: &Reader) -> bool
    ensures { result ≡ pieces.is_comma (first tokens.now.rest) }
{
    match tokens.peek().what {
        Terminal::Sign(Sign::Comma) => true,
        _ => false,
    }
}

/// Whether a parameter begins with the next terminal.
fn is_sort(tokens: &Reader) -> bool
    ensures { result ≡ pieces.is_sort (first tokens.now.rest) }
{
    match tokens.peek().what {
        Terminal::Sort(_) => true,
        _ => false,
    }
}

/// Whether the next terminal is `void`.
fn is_void(tokens: &Reader) -> bool
    ensures { result ≡ pieces.is_void (first tokens.now.rest) }
{
    match tokens.peek().what {
        Terminal::Key(Keyword::Void) => true,
        _ => false,
    }
}

/// Whether the next terminal is `throws`.
fn is_throws(tokens: &Reader) -> bool
    ensures { result ≡ pieces.is_throws (first tokens.now.rest) }
{
    match tokens.peek().what {
        Terminal::Key(Keyword::Throws) => true,
        _ => false,
    }
}

/// Whether the next terminal is the end of the text.
fn is_end(tokens: &Reader) -> bool
    ensures { result ≡ pieces.is_end (first tokens.now.rest) }
{
    match tokens.peek().what {
        Terminal::End => true,
        _ => false,
    }
}

/// Whether a parameter of this sort is one by reference without `&`.
fn is_stream(sort: Sort) -> bool
    ensures { result ≡ grammar.is_stream sort }
{
    match sort {
        Sort::Value(_) => false,
        Sort::Input | Sort::Output => true,
    }
}

/// The parameter of this number.
fn parameter(alloc: Global, tokens: &mut Reader, n: u16) -> Result<Param, ParseFault>
    ensures { Reads (IsParameter n) (Parameter n ∷ []) result tokens.old tokens.new }
{
    let Terminal::Sort(sort) = tokens.peek().what else {
        return Err(tokens.unexpected());
    };
    tokens.number(Many::Parameters, n)?;
    tokens.advance();
    if is_reference(tokens) {
        tokens.advance();
        return Ok(Param {
            sort,
            by_ref: true,
            name: name(alloc, tokens)?,
        });
    }
    Ok(Param {
        sort,
        by_ref: is_stream(sort),
        name: name(alloc, tokens)?,
    })
}

/// The parameters after the left parenthesis of a function, with the right one.
fn parameters(alloc: Global, tokens: &mut Reader) -> Result<List<Param>, ParseFault>
    ensures { Reads IsParameters (Parameters ∷ []) result tokens.old tokens.new }
{
    let mut all = List::new(alloc);
    if is_void(tokens) {
        tokens.advance();
        punctuation(tokens, Punctuation::RightParen)?;
        return Ok(all);
    }
    if !is_sort(tokens) {
        punctuation(tokens, Punctuation::RightParen)?;
        return Ok(all);
    }
    let first = parameter(alloc, tokens, 1)?;
    all.push(first)?;
    let mut count = 1;
    'more: loop {
        if !is_comma(tokens) {
            punctuation(tokens, Punctuation::RightParen)?;
            return Ok(all);
        }
        tokens.advance();
        let next = parameter(alloc, tokens, count + 1)?;
        all.push(next)?;
        count += 1;
    }
}

/// The name of this number in a `throws`.
fn thrown(alloc: Global, tokens: &mut Reader, n: u16) -> Result<Name, ParseFault>
    ensures { Reads (IsThrown n) (Thrown n ∷ []) result tokens.old tokens.new }
{
    let Terminal::Name(text) = tokens.peek().what else {
        return Err(tokens.unexpected());
    };
    tokens.number(Many::Throws, n)?;
    tokens.advance();
    Ok(Name::new(alloc, text)?)
}

/// What stands between the parameters and the body, with the body's left brace.
fn throws(alloc: Global, tokens: &mut Reader) -> Result<List<Name>, ParseFault>
    ensures { Reads IsThrowsHere (machine.Throws ∷ []) result tokens.old tokens.new }
{
    let mut all = List::new(alloc);
    if !is_throws(tokens) {
        punctuation(tokens, Punctuation::LeftBrace)?;
        return Ok(all);
    }
    tokens.advance();
    let first = thrown(alloc, tokens, 1)?;
    all.push(first)?;
    let mut count = 1;
    'more: loop {
        if !is_comma(tokens) {
            punctuation(tokens, Punctuation::LeftBrace)?;
            return Ok(all);
        }
        tokens.advance();
        let next = thrown(alloc, tokens, count + 1)?;
        all.push(next)?;
        count += 1;
    }
}

/// The rest of a function after its `void`, which stands on this line.
fn function(alloc: Global, tokens: &mut Reader, line: u32) -> Result<Function, ParseFault>
    ensures { Reads (IsFunctionAfter line) (Word ∷ Fixed punctuation.LeftParen ∷ Parameters ∷ machine.Throws ∷ Block 1 ∷ []) result tokens.old tokens.new }
{
    let name = name_before(alloc, tokens, Punctuation::LeftParen)?;
    let params = parameters(alloc, tokens)?;
    let throws = throws(alloc, tokens)?;
    let body = block(alloc, tokens, 1)?;
    Ok(Function {
        line,
        name,
        params,
        throws,
        body,
    })
}

/// All functions, up to the end of the text.
pub(crate) fn functions(alloc: Global, tokens: &mut Reader) -> Result<List<Function>, ParseFault>
    ensures { Reads AreAll (machine.Functions 0 ∷ []) result tokens.old tokens.new }
{
    let mut all = List::new(alloc);
    let mut count = 0;
    'functions: loop {
        let line = tokens.peek().line;
        if is_end(tokens) {
            return Ok(all);
        }
        if !is_void(tokens) {
            return Err(tokens.unexpected());
        }
        tokens.number(Many::Functions, count + 1)?;
        tokens.begin_function();
        tokens.advance();
        let next = function(alloc, tokens, line)?;
        all.push(next)?;
        count += 1;
    }
}

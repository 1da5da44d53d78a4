// Statements.
ghost use Rattle.std.specs.Prelude.{◌≤◌, suc, [], ◌∷◌, length, IsTrue, ◌↔◌};
ghost use Rattle.shim_base.specs.declared.token.Keyword.TheVariants as k;
ghost use Rattle.shim_base.specs.declared.token.Sign.TheVariants as g;
ghost use Rattle.shim_syntax.specs.Terminals.{first};
ghost use Rattle.shim_syntax.specs.Limits.{limits};
ghost use Rattle.shim_syntax.specs.Grammar.{IsBlock, IsBody};
ghost use Rattle.shim_grammar.specs.Machine as machine;
ghost use Rattle.shim_grammar.specs.Machine.{AfterWord, CatchRest, Else, Expression, First, Fixed, Operators, Pars, Statement, Step, Test, Word};
ghost use Rattle.shim_grammar.specs.declared.punctuation.Punctuation.TheVariants as punctuation;
ghost use Rattle.shim_parser.specs.Statements.{IsSignAt, IsKeyAt, Becomes, IsThing, IsBraced, IsNamed, IsKeyed, IsAfterPar, IsNumberedBranch};
ghost use Rattle.shim_parser.specs.ReaderViews.{Reads};

use crate::call::call;
use crate::declare::declarations;
use crate::exceptions::catch_rest;
use crate::expr::test;
use crate::fault::ParseFault;
use crate::for_parts::ForParts;
use crate::header::header;
use crate::opening::{Opening, opening_of};
use crate::parts::{alone, name, punctuation};
use crate::plain::{assignment, next, put, throw};
use crate::reader::Reader;
use crate::terminal::Terminal;
use shim_base::{Keyword, List, Name, Sign};
use shim_grammar::Punctuation;
use shim_syntax::{Branch, BranchWhat, Call, Many, Stmt, What};
use std::alloc::Global;

/// Whether the next terminal is this sign.
fn is_sign(tokens: &Reader, sign: Sign) -> bool
    ensures { IsTrue result ↔ IsSignAt sign (first tokens.now.rest) }
{
    match tokens.peek().what {
        Terminal::Sign(found) => found == sign,
        _ => false,
    }
}

/// Whether the next terminal is this keyword.
fn is_key(tokens: &Reader, key: Keyword) -> bool
    ensures { IsTrue result ↔ IsKeyAt key (first tokens.now.rest) }
{
    match tokens.peek().what {
        Terminal::Key(found) => found == key,
        _ => false,
    }
}

/// A list of the one statement on this line, if it was read. If it wasn't, its fault stays.
fn one(alloc: Global, line: u32, what: Result<What, ParseFault>) -> Result<List<Stmt>, ParseFault>
    ensures { Becomes line what result }
{
    let what = what?;
    Ok(alone(alloc, Stmt { line, what })?)
}

/// The statements of a block after its left brace, with the right one. The statements have this level.
#[cycle(statements)]
pub(crate) fn block(
    alloc: Global,
    tokens: &mut Reader,
    level: u16,
) -> Result<List<Stmt>, ParseFault>
    requires { level ≤ 65 }
    ensures { Reads (IsBlock limits level) (machine.Block level ∷ []) result tokens.old tokens.new }
{
    let mut all = List::new(alloc);
    'statements: loop {
        if is_sign(tokens, Sign::RightBrace) {
            tokens.advance();
            return Ok(all);
        }
        let more = statement(alloc, tokens, level)?;
        all.append(more)?;
    }
}

/// A statement of this level, as a thing that begins.
#[cycle(statements)]
fn statement(alloc: Global, tokens: &mut Reader, level: u16) -> Result<List<Stmt>, ParseFault>
    requires { level ≤ 65 }
    ensures { Reads (IsThing level) (Statement level ∷ []) result tokens.old tokens.new }
{
    let token = tokens.peek();
    let Some(opening) = opening_of(token.what) else {
        return Err(tokens.unexpected());
    };
    tokens.enter(level)?;
    tokens.advance();
    let line = token.line;
    match opening {
        Opening::Empty => Ok(List::new(alloc)),
        Opening::Declaration(ty) => declarations(alloc, tokens, line, ty, level),
        Opening::Block => one(alloc, line, braced(alloc, tokens, line, level)),
        Opening::Name(text) => one(alloc, line, named(alloc, tokens, line, text, level)),
        Opening::Next => one(alloc, line, next(alloc, tokens, level)),
        Opening::Put => one(alloc, line, put(alloc, tokens, level)),
        Opening::If => one(alloc, line, if_statement(alloc, tokens, level)),
        Opening::While => one(alloc, line, while_loop(alloc, tokens, level)),
        Opening::For => one(alloc, line, for_loop(alloc, tokens, level)),
        Opening::Try => one(alloc, line, try_statement(alloc, tokens, level)),
        Opening::Throw => one(alloc, line, throw(alloc, tokens, level)),
    }
}

/// The rest of a block after its left brace, which stands on this line, or of a fork whose first branch is
/// that block.
#[cycle(statements)]
fn braced(alloc: Global, tokens: &mut Reader, line: u32, level: u16) -> Result<What, ParseFault>
    requires { level ≤ 64 }
    ensures { Reads (IsBraced line level) (machine.Block (suc level) ∷ Pars level 1 ∷ []) result tokens.old tokens.new }
{
    let statements = block(alloc, tokens, level + 1)?;
    if !is_key(tokens, Keyword::Par) {
        return Ok(What::Block(statements));
    }
    let first = Branch {
        line,
        what: BranchWhat::Block(statements),
    };
    Ok(What::Par(branches(alloc, tokens, first, level)?))
}

/// The rest of a statement after the name with which it begins on this line.
#[cycle(statements)]
fn named(
    alloc: Global,
    tokens: &mut Reader,
    line: u32,
    text: &[u8],
    level: u16,
) -> Result<What, ParseFault>
    requires level { level ≤ 64 }
    requires some { 1 ≤ length text.now }
    requires short { length text.now ≤ 64 }
    ensures { Reads (IsNamed text.now line level) (AfterWord level ∷ []) result tokens.old tokens.new }
{
    let name = Name::new(alloc, text)?;
    if is_sign(tokens, Sign::Equal) {
        tokens.advance();
        return assignment(alloc, tokens, name, level);
    }
    punctuation(tokens, Punctuation::LeftParen)?;
    let args = call(alloc, tokens, level)?;
    let call = Call {
        function: name,
        args,
    };
    if !is_key(tokens, Keyword::Par) {
        return Ok(What::Call(call));
    }
    let first = Branch {
        line,
        what: BranchWhat::Call(call),
    };
    Ok(What::Par(branches(alloc, tokens, first, level)?))
}

/// The body of an `if`, an `else`, a `while` or a `for`. It has this level.
#[cycle(statements)]
fn body(alloc: Global, tokens: &mut Reader, level: u16) -> Result<List<Stmt>, ParseFault>
    requires { level ≤ 65 }
    ensures { Reads (IsBody limits level) (machine.Body level ∷ []) result tokens.old tokens.new }
{
    if !is_sign(tokens, Sign::LeftBrace) {
        return statement(alloc, tokens, level);
    }
    let line = tokens.peek().line;
    tokens.advance();
    let outside = tokens.begin_body();
    let statements = block(alloc, tokens, level)?;
    if !is_key(tokens, Keyword::Par) {
        tokens.end_body(outside);
        return Ok(statements);
    }
    let deeper = tokens.as_branch(level);
    tokens.end_body(outside);
    tokens.enter(deeper)?;
    let first = Branch {
        line,
        what: BranchWhat::Block(statements),
    };
    let what = What::Par(branches(alloc, tokens, first, level)?);
    Ok(alone(alloc, Stmt { line, what })?)
}

/// The rest of an `if` statement after the word `if`.
#[cycle(statements)]
fn if_statement(alloc: Global, tokens: &mut Reader, level: u16) -> Result<What, ParseFault>
    requires { level ≤ 64 }
    ensures { Reads (IsKeyed k.If level)
        (Fixed punctuation.LeftParen ∷ Expression level ∷ Operators level ∷ Fixed punctuation.RightParen ∷ machine.Body (suc level) ∷ Else (suc level) ∷ [])
        result tokens.old tokens.new }
{
    let test = test(alloc, tokens, level)?;
    let then_do = body(alloc, tokens, level + 1)?;
    if is_key(tokens, Keyword::Else) {
        tokens.advance();
        let else_do = body(alloc, tokens, level + 1)?;
        return Ok(What::If(test, then_do, else_do));
    }
    Ok(What::If(test, then_do, List::new(alloc)))
}

/// The rest of a `while` statement after the word `while`.
#[cycle(statements)]
fn while_loop(alloc: Global, tokens: &mut Reader, level: u16) -> Result<What, ParseFault>
    requires { level ≤ 64 }
    ensures { Reads (IsKeyed k.While level)
        (Fixed punctuation.LeftParen ∷ Expression level ∷ Operators level ∷ Fixed punctuation.RightParen ∷ machine.Body (suc level) ∷ []) result tokens.old tokens.new }
{
    let test = test(alloc, tokens, level)?;
    let repeated = body(alloc, tokens, level + 1)?;
    Ok(What::While(test, repeated))
}

/// The rest of a `for` statement after the word `for`.
#[cycle(statements)]
fn for_loop(alloc: Global, tokens: &mut Reader, level: u16) -> Result<What, ParseFault>
    requires { level ≤ 64 }
    ensures { Reads (IsKeyed k.For level)
        (Fixed punctuation.LeftParen ∷ First (suc level) ∷ Test level ∷ Step (suc level) ∷ machine.Body (suc level) ∷ []) result tokens.old tokens.new }
{
    let ForParts { first, test, step } = header(alloc, tokens, level)?;
    let repeated = body(alloc, tokens, level + 1)?;
    Ok(What::For(first, test, step, repeated))
}

/// The rest of a `try` statement after the word `try`.
#[cycle(statements)]
fn try_statement(alloc: Global, tokens: &mut Reader, level: u16) -> Result<What, ParseFault>
    requires { level ≤ 64 }
    ensures { Reads (IsKeyed k.Try level)
        (Fixed punctuation.LeftBrace ∷ machine.Block (suc level) ∷ Fixed punctuation.Catch ∷ Fixed punctuation.LeftParen ∷ Word ∷ CatchRest ∷ machine.Block (suc level) ∷ [])
        result tokens.old tokens.new }
{
    punctuation(tokens, Punctuation::LeftBrace)?;
    let tried = block(alloc, tokens, level + 1)?;
    punctuation(tokens, Punctuation::Catch)?;
    punctuation(tokens, Punctuation::LeftParen)?;
    let exception = name(alloc, tokens)?;
    let variable = catch_rest(alloc, tokens)?;
    let handler = block(alloc, tokens, level + 1)?;
    Ok(What::Try(tried, exception, variable, handler))
}

/// All branches of a fork of this level: the given first branch, and those from the first `par` on.
#[cycle(statements)]
fn branches(
    alloc: Global,
    tokens: &mut Reader,
    first_branch: Branch,
    level: u16,
) -> Result<List<Branch>, ParseFault>
    requires level { level ≤ 64 }
    requires par { IsKeyAt k.Par (first tokens.old.rest) }
    ensures { Reads (IsAfterPar first_branch level) (Pars level 1 ∷ []) result tokens.old tokens.new }
{
    let mut all = alone(alloc, first_branch)?;
    let mut count = 1;
    'branches: loop {
        if !is_key(tokens, Keyword::Par) {
            return Ok(all);
        }
        tokens.advance();
        let next = branch(alloc, tokens, count + 1, level)?;
        all.push(next)?;
        count += 1;
    }
}

/// The branch of this number.
#[cycle(statements)]
fn branch(alloc: Global, tokens: &mut Reader, n: u16, level: u16) -> Result<Branch, ParseFault>
    requires { level ≤ 64 }
    ensures { Reads (IsNumberedBranch n level) (machine.Branch level n ∷ []) result tokens.old tokens.new }
{
    if is_sign(tokens, Sign::LeftBrace) {
        return block_branch(alloc, tokens, n, level);
    }
    let token = tokens.peek();
    let Terminal::Name(text) = token.what else {
        return Err(tokens.unexpected());
    };
    tokens.number(Many::Branches, n)?;
    tokens.advance();
    punctuation(tokens, Punctuation::LeftParen)?;
    let args = call(alloc, tokens, level)?;
    let call = Call {
        function: Name::new(alloc, text)?,
        args,
    };
    Ok(Branch {
        line: token.line,
        what: BranchWhat::Call(call),
    })
}

/// The branch of this number, which is a block.
#[cycle(statements)]
fn block_branch(
    alloc: Global,
    tokens: &mut Reader,
    n: u16,
    level: u16,
) -> Result<Branch, ParseFault>
    requires level { level ≤ 64 }
    requires brace { IsSignAt g.LeftBrace (first tokens.old.rest) }
    ensures { Reads (IsNumberedBranch n level) (machine.Branch level n ∷ []) result tokens.old tokens.new }
{
    tokens.number(Many::Branches, n)?;
    let line = tokens.peek().line;
    tokens.advance();
    let statements = block(alloc, tokens, level + 1)?;
    Ok(Branch {
        line,
        what: BranchWhat::Block(statements),
    })
}

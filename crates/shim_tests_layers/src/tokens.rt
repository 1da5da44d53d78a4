// The tokens of texts, as text.
use crate::setup::{Setup, content};
use crate::words::word;
use shim_base::{List, NoMemory, push_decimal};
use shim_lexer::{LexFault, Lexer, Token};
use std::alloc::Global;
use std::str;

// A text has at most so many bytes.
const MOST_BYTES: usize = 1_048_576;

fn add_number(reply: &mut List<u8>, before: &[u8], number: u64) -> Result<(), NoMemory> {
    reply.extend_from_slice(before)?;
    push_decimal(reply, number)
}

// Adds a token's kind, where the token begins and ends, and its line, as in `Word 0-4 on 1, `.
fn add_token(alloc: Global, reply: &mut List<u8>, token: &Token) -> Result<(), NoMemory> {
    let kind = format!(in alloc; "{:?}", token.kind)?;
    reply.extend_from_slice(kind.as_bytes())?;
    add_number(reply, b" ", token.at as u64)?;
    add_number(reply, b"-", token.past as u64)?;
    add_number(reply, b" on ", token.line as u64)?;
    reply.extend_from_slice(b", ")
}

// Adds a fault's kind, where the fault is, and its line.
fn add_fault(alloc: Global, reply: &mut List<u8>, fault: &LexFault) -> Result<(), NoMemory> {
    let kind = format!(in alloc; "{:?}", fault.kind)?;
    reply.extend_from_slice(kind.as_bytes())?;
    add_number(reply, b" at ", fault.at as u64)?;
    add_number(reply, b" on ", fault.line as u64)
}

// Ends the line of a text with `end` or the fault. The lexer has to answer once more what it found; where it doesn't,
// `not again` stands before that.
fn add_end(
    alloc: Global,
    reply: &mut List<u8>,
    lexer: &mut Lexer,
    found: Result<Option<Token>, LexFault>,
) -> Result<(), NoMemory> {
    if lexer.next() != found {
        reply.extend_from_slice(b"not again ")?;
    }
    match found {
        Ok(_) => reply.extend_from_slice(b"end\n"),
        Err(fault) => {
            add_fault(alloc, reply, &fault)?;
            reply.push(b'\n')
        }
    }
}

// Adds a line with the tokens of a text, up to its end or its fault.
fn add_tokens(alloc: Global, reply: &mut List<u8>, text: &[u8]) -> Result<(), NoMemory> {
    if text.len() > MOST_BYTES {
        return reply.extend_from_slice(b"too long\n");
    }
    let mut lexer = Lexer::new(text);
    for _ in 0..text.len() + 1 {
        let found = lexer.next();
        match found {
            Ok(Some(token)) => add_token(alloc, reply, &token)?,
            _ => return add_end(alloc, reply, &mut lexer, found),
        }
    }
    Ok(())
}

/// `tokens FILE..`: a line with the tokens of each file, up to its end or its fault.
pub fn tokens(
    alloc: Global,
    setup: &Setup,
    words: &[String],
) -> Result<Option<List<u8>>, NoMemory> {
    let mut reply = List::new(alloc);
    for at in 2..words.len() {
        let Some(text) = content(setup, word(words, at)) else {
            return Ok(None);
        };
        add_tokens(alloc, &mut reply, text)?;
    }
    Ok(Some(reply))
}

/// `rows FILE`: a line with the tokens of each line of the file. Each line, without its line break, is a text of its
/// own. Gives nothing where the file isn't UTF-8.
pub fn row_tokens(
    alloc: Global,
    setup: &Setup,
    words: &[String],
) -> Result<Option<List<u8>>, NoMemory> {
    let Some(bytes) = content(setup, word(words, 2)) else {
        return Ok(None);
    };
    let Ok(text) = str::from_utf8(bytes) else {
        return Ok(None);
    };
    let mut reply = List::new(alloc);
    for line in text.split_inclusive('\n') {
        let row = line.strip_suffix('\n').unwrap_or(line);
        add_tokens(alloc, &mut reply, row.as_bytes())?;
    }
    Ok(Some(reply))
}

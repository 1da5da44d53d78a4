// Resolved forms and units of sources, as text.
ghost use Rattle.std.specs.Prelude.{◌≤◌, length};

use shim_base::{List, Name, NoMemory, push_decimal};
use shim_front_end::{SourceFault, read_source};
use shim_parser::parse;
use shim_scopes::{Resolved, resolve};
use shim_units::Unit;
use std::alloc::Global;
use std::fmt::Debug;

// A source has at most so many bytes.
const MOST_BYTES: usize = 1_048_576;

// Adds a line with what `{:?}` prints of a value, but with each list as a slice is printed.
fn add_shown<T: Debug>(
    alloc: Global,
    reply: &mut List<u8>,
    before: &[u8],
    value: &T,
) -> Result<(), NoMemory> {
    let shown = format!(in alloc; "{value:?}")?;
    let shown = shown.replace(alloc, "List { items: [", "[")?;
    let shown = shown.replace(alloc, "] }", "]")?;
    reply.extend_from_slice(before)?;
    reply.extend_from_slice(shown.as_bytes())?;
    reply.push(b'\n')
}

fn add_number(reply: &mut List<u8>, before: &[u8], number: u32) -> Result<(), NoMemory> {
    reply.extend_from_slice(before)?;
    push_decimal(reply, number as u64)
}

// Adds a line with the names of a source, in their order.
fn add_names(reply: &mut List<u8>, names: &[Name]) -> Result<(), NoMemory> {
    reply.extend_from_slice(b"names")?;
    for name in names {
        reply.push(b' ')?;
        reply.extend_from_slice(name.as_bytes())?;
    }
    reply.push(b'\n')
}

// The resolved form of a text.
fn form_of(alloc: Global, source: &[u8]) -> Result<Resolved, SourceFault>
    requires { length source.now ≤ 1048576 }
{
    let program = parse(alloc, source)?;
    Ok(resolve(alloc, &program)?)
}

/// The names of a source, the number of its `main`, and a line for each resolved function; nothing where the source
/// is too long, or isn't resolved.
pub fn form_text(alloc: Global, source: &[u8]) -> Result<Option<List<u8>>, NoMemory> {
    if source.len() > MOST_BYTES {
        return Ok(None);
    }
    let Ok(resolved) = form_of(alloc, source) else {
        return Ok(None);
    };
    let mut reply = List::new(alloc);
    add_names(&mut reply, resolved.names())?;
    add_number(&mut reply, b"main ", resolved.main())?;
    reply.push(b'\n')?;
    for function in resolved.functions() {
        add_shown(alloc, &mut reply, b"", function)?;
    }
    Ok(Some(reply))
}

// Adds the lines of a unit. Its first one has its title, the number of its function, and how many exceptions it is
// given.
fn add_unit(alloc: Global, reply: &mut List<u8>, unit: &Unit) -> Result<(), NoMemory> {
    reply.extend_from_slice(b"unit ")?;
    reply.extend_from_slice(unit.title.as_slice())?;
    add_number(reply, b" of ", unit.function)?;
    add_number(reply, b" throws ", unit.throws)?;
    reply.push(b'\n')?;
    add_shown(alloc, reply, b"tries ", &unit.tries)?;
    add_shown(alloc, reply, b"params ", &unit.params)?;
    add_shown(alloc, reply, b"slots ", &unit.slots)?;
    add_shown(alloc, reply, b"names ", &unit.slot_names)?;
    add_shown(alloc, reply, b"body ", &unit.body)
}

/// The names of a source, the number of its `main` with the exceptions that that throws, and its units; nothing where
/// the source is refused.
pub fn units_text(alloc: Global, source: &[u8]) -> Result<Option<List<u8>>, NoMemory> {
    if source.len() > MOST_BYTES {
        return Ok(None);
    }
    let Ok(accepted) = read_source(alloc, source) else {
        return Ok(None);
    };
    let mut reply = List::new(alloc);
    add_names(&mut reply, accepted.names())?;
    add_number(&mut reply, b"main ", accepted.main())?;
    reply.extend_from_slice(b" throws")?;
    for name in accepted.main_throws() {
        add_number(&mut reply, b" ", *name)?;
    }
    reply.push(b'\n')?;
    for unit in accepted.units() {
        add_unit(alloc, &mut reply, unit)?;
    }
    Ok(Some(reply))
}

// Jobs that words ask for, as text.
use shim_base::{List, NoMemory, push_decimal};
use shim_command::{Job, WordsFault, read_words};
use std::alloc::Global;

fn add_quoted(reply: &mut List<u8>, before: &[u8], name: &[u8]) -> Result<(), NoMemory> {
    reply.extend_from_slice(before)?;
    reply.push(b'"')?;
    reply.extend_from_slice(name)?;
    reply.push(b'"')
}

fn add_number(reply: &mut List<u8>, before: &[u8], number: u64) -> Result<(), NoMemory> {
    reply.extend_from_slice(before)?;
    push_decimal(reply, number)
}

fn add_files(reply: &mut List<u8>, job: &Job) -> Result<(), NoMemory> {
    add_quoted(reply, b" ", job.file.as_slice())?;
    for name in job.inputs.as_slice() {
        add_quoted(reply, b" on ", name.as_slice())?;
    }
    if let Some(input) = &job.input {
        add_quoted(reply, b" input ", input.as_slice())?;
    }
    Ok(())
}

fn add_numbers(reply: &mut List<u8>, job: &Job) -> Result<(), NoMemory> {
    add_number(reply, b": ", job.workers)?;
    add_number(reply, b" ", job.budget)?;
    add_number(reply, b" ", job.quantum)?;
    add_number(reply, b" ", job.size)
}

// The mode, FILE, each INPUT, the input, and then workers, budget, quantum, size and whether work is stolen.
fn shown(alloc: Global, job: &Job) -> Result<List<u8>, NoMemory> {
    let mode = format!(in alloc; "{:?}", job.mode)?;
    let mut reply = List::from_slice(alloc, mode.as_bytes())?;
    add_files(&mut reply, job)?;
    add_numbers(&mut reply, job)?;
    if job.steal {
        reply.extend_from_slice(b" steal")?;
    }
    reply.push(b'\n')?;
    Ok(reply)
}

/// The job that the words ask for, the first of which is a program's own name; nothing where they are refused.
pub fn job_text(alloc: Global, words: &[String]) -> Result<Option<List<u8>>, NoMemory> {
    match read_words(alloc, words) {
        Ok(job) => Ok(Some(shown(alloc, &job)?)),
        Err(WordsFault::Refused) => Ok(None),
        Err(WordsFault::NoMemory) => Err(NoMemory),
    }
}

// What no clause says: the system's files and output.
use shim_edge::{FileFault, Files, Got, HostFiles, HostSink, Sink, SinkFault, write_all};
use std::alloc::Global;
use std::fmt::Display;
use std::process::Abort;
use std::test::Fail;
use std::{fs, io};

// What a read has to give.
#[derive(Clone, Copy)]
enum Wanted<'a> {
    Whole(&'a [u8]),
    Longer,
    Failed,
}

fn is_as_wanted(got: &Result<Got, FileFault>, wanted: Wanted) -> bool {
    match (got, wanted) {
        (Ok(Got::Whole(bytes)), Wanted::Whole(whole)) => bytes.as_slice() == whole,
        (Ok(Got::Longer), Wanted::Longer) => true,
        (Err(FileFault::Failed), Wanted::Failed) => true,
        _ => false,
    }
}

// Reads each of these names up to so many bytes.
fn expect_reads<F: Files>(
    rt: &impl Abort,
    alloc: Global,
    files: &mut F,
    reads: &[(&[u8], usize, Wanted)],
) {
    for read in reads {
        let got = files.read(alloc, read.0, read.1);
        assert!(rt; is_as_wanted(&got, read.2), "{:?} gave {got:?}", read.0);
    }
}

#[test]
fn a_real_file_is_read_whole_or_is_longer_and_what_is_no_file_fails(
    rt: HostRuntime,
) -> Result<(), Fail> {
    let alloc = rt.alloc();
    fs::write(&rt, "shim_edge_five_bytes", "five\n")?;
    fs::create_dir(&rt, "shim_edge_folder")?;
    expect_reads(
        &rt,
        alloc,
        &mut HostFiles::new(alloc, &rt),
        &[
            (b"shim_edge_five_bytes", 5, Wanted::Whole(b"five\n")),
            (
                b"shim_edge_five_bytes",
                usize::MAX,
                Wanted::Whole(b"five\n"),
            ),
            (b"shim_edge_five_bytes", 4, Wanted::Longer),
            (b"shim_edge_five_bytes", 0, Wanted::Longer),
            (b"shim_edge_missing", 5, Wanted::Failed),
            (b"shim_edge_folder", 5, Wanted::Failed),
            (b"shim_edge_\xff", 5, Wanted::Failed),
            (b"shim_edge_\0", 5, Wanted::Failed),
        ],
    );
    fs::remove_file(&rt, "shim_edge_five_bytes")?;
    fs::remove_dir(&rt, "shim_edge_folder")?;
    Ok(())
}

// An output that answers every write with this count, or with an error.
#[derive(Drop)]
struct Answers(Option<usize>);

impl Print for Answers {
    fn print<D: Display + Drop>(&self, _value: D) -> io::Result<()> {
        Ok(())
    }

    fn println<D: Display + Drop>(&self, _value: D) -> io::Result<()> {
        Ok(())
    }

    fn write_all(&self, _bytes: &[u8]) -> io::Result<()> {
        Ok(())
    }

    fn write_some(&self, bytes: &[u8]) -> io::Result<usize> {
        match self.0 {
            Some(count) => Ok(count.min(bytes.len())),
            None => Err(io::Error::from(io::ErrorKind::BrokenPipe)),
        }
    }
}

// What a write to that output gives.
fn written(output: Option<usize>) -> Result<usize, SinkFault> {
    let output = Answers(output);
    HostSink::new(&output).write(b"a text\n".as_slice())
}

#[test]
fn the_standard_output_takes_a_text_and_one_that_takes_nothing_fails(rt: HostRuntime) {
    assert!(rt; write_all(&mut HostSink::new(&rt), b"a text\n".as_slice()).is_ok());
    assert!(rt; written(Some(2)) == Ok(2));
    assert!(rt; written(Some(0)) == Err(SinkFault::Failed));
    assert!(rt; written(None) == Err(SinkFault::Failed));
}

//! The program: it collects the words after its name, runs them over standard input and a buffer before standard output,
//! and ends with the status' code.
//! It stands on df_run for all that it does and on df_io for the two streams. No crate stands on it.
//! Where the words can't be had it ends with a code of its own, 9; out of memory for the words or the buffer is 6, and a
//! write that fails when the buffer is emptied at the end is 5.
#![tactic(auto)]

use df_io::{StdSink, StdSource};
use df_run::run;
use std::io::{BufWriter, ErrorKind, Write};
use std::process::ExitCode;
use std::rt::Env;
use std::{env, io};

// How many bytes of the text are held before they are written to standard output.
const BUFFER_BYTES: usize = 65_536;

// The words after the program's name.
fn words(rt: &(impl Env + AllocGlobal)) -> io::Result<Vec<String>> {
    let mut words = Vec::new(rt.alloc());
    for word in env::args(rt)?.skip(1) {
        words.push(word)?;
    }
    Ok(words)
}

fn main(rt: HostRuntime) -> ExitCode {
    let words = match words(&rt) {
        Ok(words) => words,
        Err(error) if error.kind() == ErrorKind::OutOfMemory => return ExitCode::from(6),
        Err(_) => return ExitCode::from(9),
    };
    let mut input = StdSource::new(rt.reader());
    let Ok(writer) = BufWriter::with_capacity(rt.alloc(), BUFFER_BYTES, io::writer(&rt)) else {
        return ExitCode::from(6);
    };
    let mut out = StdSink::new(writer);
    let status = run(rt.alloc(), words.as_slice(), &mut input, &mut out);
    if out.writer.flush().is_err() {
        return ExitCode::from(5);
    }
    ExitCode::from(status.code())
}

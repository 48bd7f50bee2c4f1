// SPDX-License-Identifier: Apache-2.0

use crate::running::run;
use cedar_commands::Status;
use cedar_streams::{StdSink, StdSource};
use std::io::{BufWriter, Write};
use std::{env, io};

/// How many bytes of a listing are kept before they go out.
const OUTPUT_BUFFER: usize = 65_536;

/// Runs the program on the words and the streams of the process.
pub fn run_process(rt: &HostRuntime) -> Status {
    match words(rt) {
        Ok(words) => run_on_streams(rt, words.as_slice()),
        Err(error) if error.kind() == io::ErrorKind::OutOfMemory => Status::NoMemory,
        Err(_) => Status::Usage,
    }
}

/// The words of the process, without the name of the program.
fn words(rt: &HostRuntime) -> io::Result<Vec<String>> {
    let mut words = env::args(rt)?;
    words.next();
    let words = words.collect(rt.alloc())?;
    Ok(words)
}

/// Runs the program on the streams of the process.
fn run_on_streams(rt: &HostRuntime, words: &[String]) -> Status {
    let Ok(buffer) = BufWriter::with_capacity(rt.alloc(), OUTPUT_BUFFER, rt.stdout()) else {
        return Status::NoMemory;
    };
    let mut source = StdSource::new(rt.stdin());
    let mut out = StdSink::new(buffer);
    let mut err = StdSink::new(rt.stderr());
    let status = run(rt.alloc(), words, &mut source, &mut out, &mut err);
    if status == Status::Done && out.get_mut().flush().is_err() {
        return Status::WriteFault;
    }
    status
}

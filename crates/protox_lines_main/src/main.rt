//! The program protox_lines: it runs `protox_lines::run_lines` on the arguments and the disk, the input, the output and the error output
//! of the process.
#![tactic(auto)]

use pbx_wire::{NoMemory, Text, Texts};
use protox_io::{RealDisk, RealError, RealSink, RealSource, Sink, write_all};
use protox_lines::run_lines;
use std::process::ExitCode;
use std::rt::Env;
use std::{env, io};

fn add<R: AllocGlobal>(rt: &R, words: &mut Texts, word: &str) -> Result<(), NoMemory> {
    words.add(Text::from_str(rt.alloc(), word)?)
}

/// Adds the arguments of the process, without its own name.
fn add_arguments<R: Env + AllocGlobal>(rt: &R, words: &mut Texts) -> io::Result<()> {
    for word in env::args(rt)?.skip(1) {
        if add(rt, words, word.as_str()).is_err() {
            return Err(io::Error::from(io::ErrorKind::OutOfMemory));
        }
    }
    Ok(())
}

/// Says why there are no words, and gives the status: 2 where an argument is no text, 4 for want of memory.
fn without_words<E: Sink>(err: &mut E, kind: io::ErrorKind) -> u8 {
    let (line, status): (&[u8], u8) = if kind == io::ErrorKind::InvalidData {
        (b"error: arguments are not UTF-8\n", 2)
    } else {
        (b"error: out of memory\n", 4)
    };
    // Nothing more can be said where err fails too.
    let _ = write_all(err, line);
    status
}

fn main(rt: HostRuntime) -> ExitCode {
    let mut err = RealError::new(rt.stderr());
    let mut words = Texts::new(rt.alloc());
    if let Err(error) = add_arguments(&rt, &mut words) {
        return ExitCode::from(without_words(&mut err, error.kind()));
    }
    let mut input = RealSource::new(rt.stdin());
    let mut out = RealSink::new(rt.stdout());
    let ran = run_lines(
        rt.alloc(),
        &words,
        RealDisk::new(&rt),
        &mut input,
        &mut out,
        &mut err,
    );
    ExitCode::from(ran.status)
}

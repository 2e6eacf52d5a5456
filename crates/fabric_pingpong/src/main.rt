//! The program: runs a script of fabric operations over the real files, output and clock.
//!
//! `fabric_pingpong script FILE` writes the report of the script's run to standard output. A refusal is
//! one line on standard error, and the exit status tells which: 0 done, 1 stuck, 2 usage, 3 the script
//! is refused, 4 a file is too long, 5 a file could not be read, 6 the output could not be written,
//! 7 out of memory.
//!
//! What is carried out, and how its end is told, is [`fab_host::carry_out`]; here it gets the words of the command
//! line, the real files, output, clock and standard error.
#![tactic(auto)]

use fab_host::{FileDepot, OpenGate, OutSink, WallClock, carry_out, refuse, words_of};
use std::io;
use std::process::ExitCode;

fn main(rt: HostRuntime) -> ExitCode {
    let mut errors = OutSink::new(rt.stderr());
    let words = match words_of(&rt) {
        Ok(words) => words,
        Err(refused) => return refuse(refused, &mut errors).code,
    };
    let mut depot = FileDepot::new(&rt);
    let mut sink = OutSink::new(io::writer(&rt));
    let mut clock = WallClock::new(&rt);
    let ended = carry_out(
        &rt,
        rt.alloc(),
        &words,
        &mut depot,
        &mut sink,
        &mut clock,
        &OpenGate,
        &mut errors,
    );
    ended.code
}

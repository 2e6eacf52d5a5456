//! The lines that commands write, from their words on, and the lines of a script.
ghost use Rattle.std.specs.Prelude.{IfSome};
ghost use Rattle.fab_workloads.specs.Commands.{IsWithin};

use fab_base::{Bound, Line, LineOp, NoMemory, Text};
use fab_workloads::{Workload, bench_line, bound, payload_file, workload_of};
use std::alloc::Global;
use std::test::Fail;

fn words(alloc: Global, line: &str) -> Result<Vec<Text>, NoMemory> {
    let mut words = Vec::new(alloc);
    for word in line.split(' ') {
        words.push(Text::copy(alloc, word)?)?;
    }
    Ok(words)
}

/// What these words ask for.
fn asked(alloc: Global, line: &str) -> Option<Workload>
    ensures { IfSome result IsWithin }
{
    match words(alloc, line) {
        Ok(words) => workload_of(&words),
        Err(NoMemory) => None,
    }
}

/// Whether the command writes this line, from the moment 100 to the moment 140.
fn writes(alloc: Global, line: &str, text: &str) -> bool {
    let Some(workload) = asked(alloc, line) else {
        return false;
    };
    match bench_line(alloc, workload, 100, 140) {
        Ok(written) => written.as_str() == text,
        Err(NoMemory) => false,
    }
}

#[test]
fn the_lines_that_commands_write(rt: HostRuntime) -> Result<(), Fail> {
    let rows = [
        (
            "pingpong f 4096 3",
            "pingpong size 4096 count 3 sent 6 bytes 24576 micros 40\n",
        ),
        (
            "bandwidth f 10 5 2",
            "bandwidth size 10 count 5 window 2 acks 3 bytes 50 micros 40\n",
        ),
        (
            "gen 0 2 1",
            "gen number 0 peers 2 messages 1 bytes 5125 sum 654045\n",
        ),
        (
            "gen 0005 4 0",
            "gen number 5 peers 4 messages 0 bytes 0 sum 0\n",
        ),
        (
            "gen 1 1 1",
            "gen number 1 peers 1 messages 1 bytes 11351 sum 1445730\n",
        ),
    ];
    for (line, text) in rows {
        assert!(rt; writes(rt.alloc(), line, text));
    }
    Ok(())
}

/// Whether these are the words of no workload.
fn asks_nothing(alloc: Global, line: &str) -> bool {
    match words(alloc, line) {
        Ok(words) => workload_of(&words).is_none(),
        Err(NoMemory) => false,
    }
}

/// Whether these words name a file.
fn names_a_file(alloc: Global, line: &str) -> bool {
    match words(alloc, line) {
        Ok(words) => payload_file(&words).is_some(),
        Err(NoMemory) => false,
    }
}

#[test]
fn words_of_no_workload(rt: HostRuntime) -> Result<(), Fail> {
    let rows = [
        "pingpong f 4096 0",
        "pingpong f 16777217 1",
        "pingpong f 16777216 5",
        "pingpong f 0x10 1",
        "pingpong f 1",
        "bandwidth f 1 1 257",
        "bandwidth f 1 1",
        "gen 18446744073709551616 1 1",
        "gen 1 33 1",
        "gen 1 1 8193",
        "gen 1 1",
        "script f",
    ];
    for line in rows {
        assert!(rt; asks_nothing(rt.alloc(), line));
    }
    assert!(rt; names_a_file(rt.alloc(), "bandwidth f 1 1 1"));
    Ok(())
}

fn is_first_send(line: &Line) -> bool {
    matches!(
        &line.op,
        LineOp::TSend {
            ctx: 1,
            dest: 1,
            tag: 1,
            ..
        }
    )
}

fn is_wait_for_2(line: &Line) -> bool {
    matches!(&line.op, LineOp::Wait { ctx: Some(2) })
}

/// Whether peer 0 sends, receives and waits, and the lines of peer 1 begin with number 4.
fn is_ping_pong(bound: &Bound) -> bool {
    match bound.script.peers.as_slice() {
        [zero, one] => match (zero.as_slice(), one.as_slice()) {
            ([send, _, wait], [first, ..]) => {
                is_first_send(send) && is_wait_for_2(wait) && first.number == 4
            }
            _ => false,
        },
        _ => false,
    }
}

/// Whether the script of this workload over a file of one byte is that of one ping-pong.
fn makes_ping_pong(alloc: Global, line: &str) -> bool {
    let Some(workload) = asked(alloc, line) else {
        return false;
    };
    match bound(alloc, workload, b"x") {
        Ok(bound) => is_ping_pong(&bound),
        Err(NoMemory) => false,
    }
}

#[test]
fn a_script_of_one_ping_pong(rt: HostRuntime) -> Result<(), Fail> {
    assert!(rt; makes_ping_pong(rt.alloc(), "pingpong f 3 1"));
    Ok(())
}

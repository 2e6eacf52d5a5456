//! The line that a workload's command writes.
ghost use Rattle.std.specs.Prelude.{◌≡◌, ◌≤◌, ◌<◌, ◌*◌, ◌++◌, ◌^◌, IfOk, OnOk, string_bytes};
ghost use Rattle.fab_model.specs.Words.{line_of};
ghost use Rattle.fab_workloads.specs.Bench.{bench_line, pingpong_words, bandwidth_words, generated_words};
ghost use Rattle.fab_workloads.specs.Commands.{IsWithin};

use crate::generator::{generated_bytes, generated_sum};
use crate::lines::windows;
use crate::workload::Workload;
use fab_base::NoMemory;
use std::alloc::Global;

fn add_pingpong(
    out: &mut String,
    size: u32,
    count: u32,
    sent: u64,
    bytes: u64,
    micros: u64,
) -> Result<(), NoMemory>
    ensures { OnOk result (string_bytes out.new ≡ string_bytes out.old ++ line_of (pingpong_words size count sent bytes micros)) }
{
    writeln!(
        out,
        "pingpong size {size} count {count} sent {sent} bytes {bytes} micros {micros}"
    )?;
    Ok(())
}

fn add_bandwidth(
    out: &mut String,
    size: u32,
    count: u32,
    window: u32,
    acks: u32,
    bytes: u64,
    micros: u64,
) -> Result<(), NoMemory>
    ensures { OnOk result (string_bytes out.new ≡ string_bytes out.old ++ line_of (bandwidth_words size count window acks bytes micros)) }
{
    writeln!(
        out,
        "bandwidth size {size} count {count} window {window} acks {acks} bytes {bytes} micros {micros}"
    )?;
    Ok(())
}

fn add_generated(
    out: &mut String,
    number: u64,
    peers: u32,
    messages: u32,
    bytes: u64,
    sum: u64,
) -> Result<(), NoMemory>
    ensures { OnOk result (string_bytes out.new ≡ string_bytes out.old ++ line_of (generated_words number peers messages bytes sum)) }
{
    writeln!(
        out,
        "gen number {number} peers {peers} messages {messages} bytes {bytes} sum {sum}"
    )?;
    Ok(())
}

/// How many bytes so many messages of this size have.
fn bytes_of(size: u32, count: u32) -> u64
    ensures { result ≡ size * count }
{
    u64::from(size) * u64::from(count)
}

/// The line, with the clock's moments in microseconds before the peers run and after they have finished.
#[tactic(auto, unfolding(crate::specs::Bench::bench_line))]
pub fn bench_line(alloc: Global, workload: Workload, m0: u64, m1: u64) -> Result<String, NoMemory>
    requires { IsWithin workload }
    ensures { IfOk result (λ text. string_bytes text ≡ bench_line workload m0 m1) }
{
    let mut out = String::new(alloc);
    let micros = m1.saturating_sub(m0);
    match workload {
        Workload::Pingpong { size, count } => {
            let sent = 2 * u64::from(count);
            let bytes = 2 * bytes_of(size, count);
            add_pingpong(&mut out, size, count, sent, bytes, micros)?;
        }
        Workload::Bandwidth {
            size,
            count,
            window,
        } => {
            let acks = windows(count, window);
            let bytes = bytes_of(size, count);
            add_bandwidth(&mut out, size, count, window, acks, bytes, micros)?;
        }
        Workload::Generated {
            number,
            peers,
            messages,
        } => {
            let bytes = generated_bytes(number, messages);
            let sum = generated_sum(number, messages);
            add_generated(&mut out, number, peers, messages, bytes, sum)?;
        }
    }
    Ok(out)
}

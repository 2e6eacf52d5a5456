//! How the program ends: its line on standard error and its exit status.
ghost use Rattle.std.specs.Prelude.{◌≡◌, ◌≤◌, ◌++◌, ◌∷◌, [], OnOk, OnErr, decimal};
ghost use Rattle.std.specs.Io.KnownBytes.{append_known};
ghost use Rattle.std.specs.Process.{exit_status};
ghost use Rattle.fab_base.specs.Counts.{Rose};
ghost use Rattle.fab_host.specs.Ending.{status_number, why_name, line_of_end, IsTold};

use fab_base::{Status, Why};
use fab_outside::{Failed, Sink, write_all};
use std::process::ExitCode;

/// Tells the end on one line, unless the whole text was written, and gives the exit status. Where
/// the line can't be written, the exit status stays.
pub fn end<E: Sink>(errors: &mut E, status: &Status) -> ExitCode
    ensures code { exit_status result ≡ status_number status.now }
    ensures told { IsTold (E.bytes errors.old) (E.bytes errors.new) (E.faults errors.old) (E.faults errors.new) status.now }
{
    let _ = tell(errors, status);
    ExitCode::from(number_of(status))
}

/// The exit status of this end.
fn number_of(status: &Status) -> u8
    ensures { result ≡ status_number status.now }
{
    match status {
        Status::Done => 0,
        Status::Stuck => 1,
        Status::Usage => 2,
        Status::ScriptRefused { .. } => 3,
        Status::TooLong { .. } => 4,
        Status::ReadFault { .. } => 5,
        Status::WriteFault => 6,
        Status::NoMemory => 7,
    }
}

/// One line, unless the whole text was written. Takes no memory, so that want of it can be told.
fn tell<E: Sink>(errors: &mut E, status: &Status) -> Result<(), Failed>
    ensures ok { OnOk result (E.bytes errors.new ≡ append_known (E.bytes errors.old) (line_of_end status.now)) }
    ensures failed { OnErr result (Rose (E.faults errors.old) (E.faults errors.new)) }
{
    match status {
        Status::Done | Status::Stuck => Ok(()),
        Status::Usage => tell_named(
            errors,
            "usage: ",
            "fabric_pingpong script FILE | pingpong FILE SIZE COUNT | bandwidth FILE SIZE COUNT WINDOW | gen NUMBER PEERS MESSAGES | info CAPS | window NUMBER PEERS WORDS ADDS | coll FILE | replay FILE TRACE",
        ),
        Status::ScriptRefused { line, why } => tell_refused(errors, *line, *why),
        Status::TooLong { name } => tell_named(errors, "too long: ", name.as_str()),
        Status::ReadFault { name } => tell_named(errors, "read fault: ", name.as_str()),
        Status::WriteFault => tell_named(errors, "write fault", ""),
        Status::NoMemory => tell_named(errors, "out of memory", ""),
    }
}

/// A line of two texts.
fn tell_named<E: Sink>(errors: &mut E, front: &str, name: &str) -> Result<(), Failed>
    ensures ok { OnOk result (E.bytes errors.new ≡ append_known (E.bytes errors.old) (front.now ++ name.now ++ 10 ∷ [])) }
    ensures failed { OnErr result (Rose (E.faults errors.old) (E.faults errors.new)) }
{
    write_all(errors, front.as_bytes())?;
    write_all(errors, name.as_bytes())?;
    write_all(errors, b"\n")
}

/// The line of a script that is refused.
fn tell_refused<E: Sink>(errors: &mut E, line: u32, why: Why) -> Result<(), Failed>
    ensures ok { OnOk result (E.bytes errors.new ≡ append_known (E.bytes errors.old) (line_of_end (Status.ScriptRefused line why))) }
    ensures failed { OnErr result (Rose (E.faults errors.old) (E.faults errors.new)) }
{
    write_all(errors, b"script refused at line ")?;
    write_number(errors, line)?;
    tell_named(errors, ": ", name_of(why))
}

/// A number in decimal.
fn write_number<E: Sink>(errors: &mut E, number: u32) -> Result<(), Failed>
    ensures never_falls { E.faults errors.old ≤ E.faults errors.new }
    ensures ok { OnOk result (E.bytes errors.new ≡ append_known (E.bytes errors.old) (decimal number)) }
    ensures failed { OnErr result (Rose (E.faults errors.old) (E.faults errors.new)) }
{
    let last = [b'0' + (number % 10) as u8];
    if number < 10 {
        return write_all(errors, &last);
    }
    write_number(errors, number / 10)?;
    write_all(errors, &last)
}

/// The name of the reason for which a script is refused.
fn name_of(why: Why) -> &'static str
    ensures { result.now ≡ why_name why }
{
    match why {
        Why::NotText => "NotText",
        Why::Header => "Header",
        Why::Verb => "Verb",
        Why::Order => "Order",
        Why::Twice => "Twice",
        Why::Words => "Words",
        Why::Number => "Number",
        Why::Peer => "Peer",
        Why::Limit => "Limit",
        Why::NoData => "NoData",
        Why::Missing => "Missing",
        Why::FileRange => "FileRange",
    }
}

//! Ends that no row of `run_examples` has, with their exit status and their line on standard error.
use fab_base::{Status, Text};
use fab_host::end;
use fab_outside::MemorySink;
use std::alloc::Global;
use std::process::ExitCode;
use std::test::Fail;

/// An output whose call of this number fails.
fn sink_of(alloc: Global, failing: u64) -> Option<MemorySink> {
    let failing = Vec::from_slice(alloc, &[failing]).ok()?;
    Some(MemorySink::new(alloc, 1000, failing))
}

/// Whether this end has this exit status and this line.
fn tells(alloc: Global, status: Status, code: u8, line: &str) -> bool {
    let mut errors = MemorySink::new(alloc, 1000, Vec::new(alloc));
    end(&mut errors, &status) == ExitCode::from(code) && errors.bytes.as_slice() == line.as_bytes()
}

/// The same of a file that is too long.
fn tells_too_long(alloc: Global, name: &str, line: &str) -> bool {
    match Text::copy(alloc, name) {
        Ok(name) => tells(alloc, Status::TooLong { name }, 4, line),
        Err(_) => false,
    }
}

#[test]
fn a_file_that_is_too_long_and_want_of_memory_are_told(rt: HostRuntime) -> Result<(), Fail> {
    assert!(rt; tells_too_long(rt.alloc(), "a b", "too long: a b\n"));
    assert!(rt; tells(rt.alloc(), Status::NoMemory, 7, "out of memory\n"));
    Ok(())
}

/// Whether a line that can't be written leaves the exit status.
fn leaves_status(alloc: Global) -> bool {
    match sink_of(alloc, 1) {
        Some(mut errors) => {
            end(&mut errors, &Status::Usage) == ExitCode::from(2)
                && errors.bytes.is_empty()
                && errors.faults == 1
        }
        None => false,
    }
}

#[test]
fn a_line_that_can_not_be_written_leaves_the_status(rt: HostRuntime) -> Result<(), Fail> {
    assert!(rt; leaves_status(rt.alloc()));
    Ok(())
}

//! A script that has as many receives and messages as a peer may.
use fab_base::NoMemory;
use std::alloc::Global;

/// A line with a number in it: its first words, and what comes behind the number each time.
type Form = (&'static str, &'static [&'static str]);

const RECEIVE: Form = ("trecv ", &[" 0 ", " 0 1\\n"]);

const SEND: Form = ("tinject 0 ", &[" text:a\\n"]);

const WAIT: Form = ("wait ", &["\\n"]);

/// Adds a line of this form with this number, which is its tag or its context.
fn add_line(text: &mut String, form: Form, number: u32) -> Result<(), NoMemory> {
    let (words, parts) = form;
    text.push_str(words)?;
    for part in parts {
        write!(text, "{number}{part}")?;
    }
    Ok(())
}

/// Adds a line for each of 4,096 numbers from this one on. The bits that are turned put them into another order.
fn add_lines(text: &mut String, form: Form, from: u32, turned: u32) -> Result<(), NoMemory> {
    for place in from..from.saturating_add(4096) {
        add_line(text, form, place ^ turned)?;
    }
    Ok(())
}

/// The file `it`, as a row spells it: as many receives are posted as a peer may have, and as many messages wait that no receive
/// took. The tags below 4,096 are those of receives that are posted at first, the others those of messages that come at first and
/// that none of these receives takes. Then comes what was missing, for the last receive and the last message first.
pub(crate) fn full_script(alloc: Global) -> Result<String, NoMemory> {
    let mut text = String::new(alloc);
    text.push_str("it fabric 1\\npeers 1\\nrx 4096\\npeer 0\\n")?;
    add_lines(&mut text, RECEIVE, 0, 0)?;
    add_lines(&mut text, SEND, 4096, 0)?;
    add_lines(&mut text, SEND, 0, 4095)?;
    add_lines(&mut text, WAIT, 0, 4095)?;
    add_lines(&mut text, RECEIVE, 4096, 4095)?;
    add_lines(&mut text, WAIT, 4096, 4095)?;
    Ok(text)
}

//! The picture: a column for each peer, a row for each event.
ghost use Rattle.std.specs.Prelude.{◌≡◌, ◌++◌, OnOk, string_bytes};
ghost use Rattle.fab_chart.specs.Escaped.{escaped_byte, escaped};

use crate::events::{Event, events_of, lines_of, sent_at, times_before};
use fab_base::{List, NoMemory, Step, Text};
use std::alloc::Global;

/// Where the first peer's line stands, and how far it is from one peer's to the next.
const LEFT: u64 = 60;

const COLUMN: u64 = 330;

/// Where the first event stands, and how far it is from one to the next.
const TOP: u64 = 60;

const ROW: u64 = 22;

/// How many characters of a line are shown.
const SHOWN: usize = 40;

/// The colours of marks: of lines that were done, of what messages do, and of completions.
const LINE: &str = "#24292f";

const MESSAGE: &str = "#1f6feb";

const COMPLETION: &str = "#1a7f37";

/// What the picture says of its marks at its foot: where each of them stands, its colour and its words.
const LEGEND: [(u64, &str, &str); 3] = [
    (60, LINE, "line done"),
    (165, MESSAGE, "message"),
    (255, COMPLETION, "completion"),
];

/// What stands before all else: words stand on white, and how the head of an arrow looks.
const HEAD: &str =
    "<style>text { paint-order: stroke; stroke: #ffffff; stroke-width: 3px }</style>\n\
    <defs><marker id='tip' viewBox='0 0 8 8' refX='8' refY='4' markerWidth='8' markerHeight='8' orient='auto'>\
    <path d='M 0 0 L 8 4 L 0 8 z' fill='#1f6feb'/></marker></defs>\n";

fn x_of(peer: u32) -> u64 {
    u64::from(peer) * COLUMN + LEFT
}

fn y_of(row: usize) -> u64 {
    (row as u64).saturating_mul(ROW).saturating_add(TOP)
}

/// A byte of a text as it stands in the picture: what begins or ends an element there is spelled, and what is no printable
/// character is `?`.
fn add_byte(out: &mut String, byte: u8) -> Result<(), NoMemory>
    ensures { OnOk result (string_bytes out.new ≡ string_bytes out.old ++ escaped_byte byte) }
{
    match byte {
        b'<' => out.push_str("&lt;")?,
        b'>' => out.push_str("&gt;")?,
        b'&' => out.push_str("&amp;")?,
        b' '..=b'~' => out.push(char::from(byte))?,
        _ => out.push('?')?,
    }
    Ok(())
}

fn add_escaped(out: &mut String, bytes: &[u8]) -> Result<(), NoMemory>
    ensures { OnOk result (string_bytes out.new ≡ string_bytes out.old ++ escaped bytes.now) }
{
    for byte in bytes {
        add_byte(out, *byte)?;
    }
    Ok(())
}

/// A line of the report, or its front.
fn add_line(out: &mut String, line: &str) -> Result<(), NoMemory> {
    let bytes = line.as_bytes();
    let shown = bytes.len().min(SHOWN);
    add_escaped(out, &bytes[..shown])?;
    if shown < bytes.len() {
        out.push_str(" ..")?;
    }
    Ok(())
}

/// What the peer did: the report's line of a line that was done, or the step in words.
fn add_words(out: &mut String, step: Step, line: &str) -> Result<(), NoMemory> {
    match step {
        Step::Do => add_line(out, line)?,
        Step::Head(source) => write!(out, "begins to come from {source}")?,
        Step::Tail(source) => write!(out, "has come whole from {source}")?,
        Step::Sent(dest) => write!(out, "transmitted to {dest}")?,
        Step::Draw => out.push_str("drawn into a buffer")?,
        Step::Read => out.push_str("completion read")?,
        Step::Final => out.push_str("receive cancelled")?,
    }
    Ok(())
}

/// The colour of a step's mark: black for a line, green for a completion, blue for what messages do.
fn colour_of(step: Step) -> &'static str {
    match step {
        Step::Do | Step::Final => LINE,
        Step::Read => COMPLETION,
        Step::Head(_) | Step::Tail(_) | Step::Sent(_) | Step::Draw => MESSAGE,
    }
}

/// A mark, and the head of the words behind it.
fn add_mark(out: &mut String, x: u64, y: u64, colour: &str) -> Result<(), NoMemory> {
    writeln!(out, "<circle cx='{x}' cy='{y}' r='4' fill='{colour}'/>")?;
    write!(
        out,
        "<text x='{}' y='{}'>",
        x.saturating_add(10),
        y.saturating_add(4)
    )?;
    Ok(())
}

/// One event: its mark, and its words behind it.
fn add_event(out: &mut String, event: Event, row: usize, line: &str) -> Result<(), NoMemory> {
    add_mark(out, x_of(event.peer), y_of(row), colour_of(event.step))?;
    add_words(out, event.step, line)?;
    out.push_str("</text>\n")?;
    Ok(())
}

/// What the marks say, beside one another.
fn add_legend(out: &mut String, y: u64) -> Result<(), NoMemory> {
    for (x, colour, words) in LEGEND {
        add_mark(out, x, y, colour)?;
        writeln!(out, "{words}</text>")?;
    }
    Ok(())
}

/// The line that this event's peer did at it, if it did one.
fn line_at<'a>(lines: &'a [List<Text>], events: &[Event], row: usize, event: Event) -> &'a str {
    let Some(own) = lines.get(event.peer as usize) else {
        return "";
    };
    let done = Event {
        peer: event.peer,
        step: Step::Do,
    };
    match own.as_slice().get(times_before(events, row, done)) {
        Some(line) => line.as_str(),
        None => "",
    }
}

fn add_events(out: &mut String, events: &[Event], lines: &[List<Text>]) -> Result<(), NoMemory> {
    for (row, event) in events.iter().enumerate() {
        let line = line_at(lines, events, row, *event);
        add_event(out, *event, row, line)?;
    }
    Ok(())
}

/// An arrow from one peer at one row to another at a later one; a peer's to itself goes round on the left.
fn add_arrow(
    out: &mut String,
    source: u32,
    from: usize,
    dest: u32,
    to: usize,
) -> Result<(), NoMemory> {
    let (x, y) = (x_of(source), y_of(from));
    let (across, down) = (x_of(dest), y_of(to));
    write!(out, "<path d='M {x} {y} ")?;
    if source == dest {
        let round = x.saturating_sub(LEFT / 2);
        write!(out, "C {round} {y} {round} {down} ")?;
    } else {
        out.push_str("L ")?;
    }
    writeln!(
        out,
        "{across} {down}' fill='none' stroke='{MESSAGE}' marker-end='url(#tip)'/>"
    )?;
    Ok(())
}

/// An arrow for each message and reply that is whole.
fn add_arrows(out: &mut String, events: &[Event]) -> Result<(), NoMemory> {
    for (row, event) in events.iter().enumerate() {
        if let Step::Tail(source) = event.step {
            if let Some(from) = sent_at(events, row, source, event.peer) {
                add_arrow(out, source, from, event.peer, row)?;
            }
        }
    }
    Ok(())
}

/// The line of each of so many peers, down to there, with its name above.
fn add_peers(out: &mut String, peers: u32, bottom: u64) -> Result<(), NoMemory> {
    for peer in 0..peers {
        let x = x_of(peer);
        writeln!(out, "<path d='M {x} 36 L {x} {bottom}' stroke='#afb8c1'/>")?;
        writeln!(
            out,
            "<text x='{x}' y='24' text-anchor='middle' font-weight='bold'>peer {peer}</text>"
        )?;
    }
    Ok(())
}

/// The sequence chart of a run, in SVG: these peers take the turns, in this order, each the next step of its list; the report tells
/// what their lines did. The time that it takes grows with the square of the number of steps.
pub fn chart(
    alloc: Global,
    order: &[u32],
    schedule: &[List<Step>],
    report: &str,
) -> Result<String, NoMemory> {
    let events = events_of(alloc, order, schedule)?;
    let lines = lines_of(alloc, report)?;
    let peers = u32::try_from(schedule.len()).unwrap_or(u32::MAX);
    let (width, foot) = (x_of(peers), y_of(events.len()));
    let (bottom, height) = (foot.saturating_sub(ROW), foot.saturating_add(ROW));
    let mut out = String::new(alloc);
    writeln!(
        out,
        "<svg xmlns='http://www.w3.org/2000/svg' width='{width}' height='{height}' font-family='monospace' font-size='12'>"
    )?;
    out.push_str("<rect width='100%' height='100%' fill='#ffffff'/>\n")?;
    out.push_str(HEAD)?;
    add_peers(&mut out, peers, bottom)?;
    add_arrows(&mut out, &events)?;
    add_events(&mut out, &events, &lines)?;
    add_legend(&mut out, foot)?;
    out.push_str("</svg>\n")?;
    Ok(out)
}

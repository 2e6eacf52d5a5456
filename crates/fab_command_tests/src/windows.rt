//! What the command `window` writes, and its words.
use crate::meeting::Meeting;
use fab_base::{NoMemory, Text};
use fab_command_runs::{window_of, window_text};
use std::alloc::Global;
use std::thread::Threads;

/// The words behind `window`, and the text: its peers are all at work at once. The totals are those of a script in Python.
const TEXTS: [([&str; 4], &str); 5] = [
    (
        ["0", "2", "1", "1"],
        "window words 1 peers 2 adds 1\nword 0 32860\n",
    ),
    (
        ["0", "1", "2", "0"],
        "window words 2 peers 1 adds 0\nword 0 0\nword 1 0\n",
    ),
    (
        ["18446744073709551615", "2", "4", "20000"],
        "window words 4 peers 2 adds 20000
word 0 327862525
word 1 321076722
word 2 327110300
word 3 330963326
",
    ),
    (
        ["7", "8", "3", "1000"],
        "window words 3 peers 8 adds 1000
word 0 86594192
word 1 84838789
word 2 88087661
",
    ),
    (
        ["11", "8", "5", "100000"],
        "window words 5 peers 8 adds 100000
word 0 5244516409
word 1 5243285976
word 2 5243823641
word 3 5277521574
word 4 5225336771
",
    ),
];

/// Words, and whether they are the command: five, and each number in its range.
const WORDS: [(&[&str], bool); 10] = [
    (
        &["window", "18446744073709551615", "32", "1024", "100000"],
        true,
    ),
    (&["window", "0", "2", "1"], false),
    (&["windows", "0", "2", "1", "1"], false),
    (&["window", "18446744073709551616", "1", "1", "0"], false),
    (&["window", "0", "0", "1", "0"], false),
    (&["window", "0", "33", "1", "0"], false),
    (&["window", "0", "1", "0", "0"], false),
    (&["window", "0", "1", "1025", "0"], false),
    (&["window", "0", "1", "1", "100001"], false),
    (&["window", "0x0", "1", "1", "0"], false),
];

fn texts(alloc: Global, words: &[&str]) -> Result<Vec<Text>, NoMemory> {
    let mut texts = Vec::new(alloc);
    for word in words {
        texts.push(Text::copy(alloc, word)?)?;
    }
    Ok(texts)
}

fn is_command(alloc: Global, words: &[&str]) -> bool {
    match texts(alloc, words) {
        Ok(texts) => window_of(texts.as_slice()).is_some(),
        Err(_) => false,
    }
}

/// Whether the command of these words writes this text, and all of its peers were at work at once.
fn is_written<R: Threads + Sync>(rt: &R, alloc: Global, words: &[Text], text: &str) -> bool {
    let Some(asked) = window_of(words) else {
        return false;
    };
    let gate = Meeting::new(asked.peers);
    match window_text(rt, alloc, &gate, asked) {
        Ok(written) => written.as_str() == text && gate.all_met(),
        Err(_) => false,
    }
}

fn writes<R: Threads + Sync>(rt: &R, alloc: Global, numbers: [&str; 4], text: &str) -> bool {
    let [number, peers, words, adds] = numbers;
    match texts(alloc, &["window", number, peers, words, adds]) {
        Ok(words) => is_written(rt, alloc, words.as_slice(), text),
        Err(_) => false,
    }
}

#[test]
fn peers_at_once_lose_nothing(rt: HostRuntime) {
    for (numbers, text) in TEXTS {
        assert!(rt; writes(&rt, rt.alloc(), numbers, text), "{text}");
    }
}

#[test]
fn each_number_has_its_range(rt: HostRuntime) {
    for (words, is_one) in WORDS {
        assert!(rt; is_command(rt.alloc(), words) == is_one, "{words:?}");
    }
}

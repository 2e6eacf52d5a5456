//! The words of the commands that run a workload.
ghost use Rattle.std.specs.Prelude.{◌≡◌, ◌≤◌, IfSome, option_map};
ghost use Rattle.fab_workloads.specs.Commands.{are_few, number_within, pingpong_of, bandwidth_of, generated_of, workload_of, payload_file, IsWithin};

use fab_base::{MESSAGE_BYTES_ONE, SCRIPT_BYTES_ONE, Text};
use fab_words::numeral;

/// What a command runs. Messages have `size` bytes, at most 16,777,216; `count` is 1 to 10,000, and all messages of one
/// direction have at most 67,108,864 bytes.
#[derive(Clone, Copy, Drop)]
pub enum Workload {
    /// A message goes there and back, `count` times.
    Pingpong {
        size: u32,
        count: u32,
    },
    /// Messages go one way, and every `window` messages (1 to 256) are acknowledged.
    Bandwidth {
        size: u32,
        count: u32,
        window: u32,
    },
    /// So many messages (up to 8,192) among so many peers (1 to 32), made of a number.
    Generated {
        number: u64,
        peers: u32,
        messages: u32,
    },
}

/// The most messages of one direction.
const COUNT_MAX: u32 = 10_000;

/// The number from `least` to `most` that the word says in one to twenty decimal digits; `None` where it says none such.
pub fn number_within(least: u32, most: u32, word: &[u8]) -> Option<u32>
    ensures value { result ≡ number_within least most word.now }
    ensures range { IfSome result (λ n. (least ≤ n) × (n ≤ most)) }
{
    let number = numeral(10, 20, word)?;
    if u64::from(least) <= number && number <= u64::from(most) {
        Some(number as u32)
    } else {
        None
    }
}

/// Whether so many messages of this size have few enough bytes.
fn are_few(size: u32, count: u32) -> bool
    ensures { result ≡ are_few size count }
{
    u64::from(size) * u64::from(count) <= SCRIPT_BYTES_ONE
}

/// `SIZE COUNT`
fn pingpong_of(size: &[u8], count: &[u8]) -> Option<Workload>
    ensures value { result ≡ pingpong_of size.now count.now }
    ensures within { IfSome result IsWithin }
{
    let size = number_within(0, MESSAGE_BYTES_ONE, size)?;
    let count = number_within(1, COUNT_MAX, count)?;
    if !are_few(size, count) {
        return None;
    }
    Some(Workload::Pingpong { size, count })
}

/// `SIZE COUNT WINDOW`
fn bandwidth_of(size: &[u8], count: &[u8], window: &[u8]) -> Option<Workload>
    ensures value { result ≡ bandwidth_of size.now count.now window.now }
    ensures within { IfSome result IsWithin }
{
    let size = number_within(0, MESSAGE_BYTES_ONE, size)?;
    let count = number_within(1, COUNT_MAX, count)?;
    let window = number_within(1, 256, window)?;
    if !are_few(size, count) {
        return None;
    }
    Some(Workload::Bandwidth {
        size,
        count,
        window,
    })
}

/// `NUMBER PEERS MESSAGES`
fn generated_of(number: &[u8], peers: &[u8], messages: &[u8]) -> Option<Workload>
    ensures value { result ≡ generated_of number.now peers.now messages.now }
    ensures within { IfSome result IsWithin }
{
    let number = numeral(10, 20, number)?;
    let peers = number_within(1, 32, peers)?;
    let messages = number_within(0, 8_192, messages)?;
    Some(Workload::Generated {
        number,
        peers,
        messages,
    })
}

fn bytes(word: &Text) -> &[u8]
    ensures { result.now ≡ word.now }
{
    word.as_str().as_bytes()
}

/// What these words ask for, where they are `pingpong FILE SIZE COUNT`, `bandwidth FILE SIZE COUNT WINDOW` or
/// `gen NUMBER PEERS MESSAGES`, each number one to twenty decimal digits and within its range.
#[tactic(auto, unfolding(crate::specs::Commands::workload_of))]
pub fn workload_of(words: &[Text]) -> Option<Workload>
    ensures value { result ≡ workload_of words.now }
    ensures within { IfSome result IsWithin }
{
    match words {
        [verb, _, size, count] if verb.as_str() == "pingpong" => pingpong_of(
            bytes(size),
            bytes(count),
        ),
        [verb, number, peers, messages] if verb.as_str() == "gen" => generated_of(
            bytes(number),
            bytes(peers),
            bytes(messages),
        ),
        [verb, _, size, count, window] if verb.as_str() == "bandwidth" => bandwidth_of(
            bytes(size),
            bytes(count),
            bytes(window),
        ),
        _ => None,
    }
}

/// The file whose first bytes the messages have: `gen` names none. It is lent of the words.
pub fn payload_file(words: &[Text]) -> Option<&Text>
    ensures { option_map (λ file. file.now) result ≡ payload_file words.now }
{
    match words {
        [verb, file, ..] if verb.as_str() == "pingpong" || verb.as_str() == "bandwidth" => Some(
            file,
        ),
        _ => None,
    }
}

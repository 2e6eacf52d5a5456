//! The words of the command.
ghost use Rattle.std.specs.Prelude.{◌≡◌, IfSome};
ghost use Rattle.fab_command_runs.specs.Commands.{asked_of, window_of, IsWithin};

use fab_base::Text;
use fab_words::numeral;
use fab_workloads::number_within;

/// What `window NUMBER PEERS WORDS ADDS` asks for: so many peers (1 to 32) make so many additions each (up to 100,000), which
/// are drawn from a number, in a window of so many words (1 to 1,024).
#[derive(Clone, Copy, Drop)]
pub struct Asked {
    pub number: u64,
    pub peers: u32,
    pub words: u32,
    pub adds: u32,
}

/// `NUMBER PEERS WORDS ADDS`
fn asked_of(number: &[u8], peers: &[u8], words: &[u8], adds: &[u8]) -> Option<Asked>
    ensures value { result ≡ asked_of number.now peers.now words.now adds.now }
    ensures within { IfSome result IsWithin }
{
    let number = numeral(10, 20, number)?;
    let peers = number_within(1, 32, peers)?;
    let words = number_within(1, 1_024, words)?;
    let adds = number_within(0, 100_000, adds)?;
    Some(Asked {
        number,
        peers,
        words,
        adds,
    })
}

fn bytes(word: &Text) -> &[u8]
    ensures { result.now ≡ word.now }
{
    word.as_str().as_bytes()
}

/// What these words ask for, where they are `window NUMBER PEERS WORDS ADDS`, each number one to twenty decimal digits and
/// within its range.
#[tactic(auto, unfolding(crate::specs::Commands::window_of))]
pub fn window_of(words: &[Text]) -> Option<Asked>
    ensures value { result ≡ window_of words.now }
    ensures within { IfSome result IsWithin }
{
    match words {
        [verb, number, peers, words, adds] if verb.as_str() == "window" => asked_of(
            bytes(number),
            bytes(peers),
            bytes(words),
            bytes(adds),
        ),
        _ => None,
    }
}

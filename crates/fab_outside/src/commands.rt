//! What the words of a command ask for.
ghost use Rattle.std.specs.Prelude.{◌≡◌, option_map};
ghost use Rattle.fab_outside.specs.Commands.{script_file, replay_files, info_caps, caps_in};

use fab_base::{Caps, Text};
use fab_grammar::{no_caps, read_caps};

/// The file whose script is to be run, where the words are `script FILE`.
pub fn script_file(words: &[Text]) -> Option<&Text>
    ensures { option_map (λ file. file.now) result ≡ script_file words.now }
{
    if words.len() != 2 || words[0].as_str() != "script" {
        return None;
    }
    Some(&words[1])
}

/// The file of a script and that of its report, where the words are `replay FILE TRACE`.
pub fn replay_files(words: &[Text]) -> Option<(&Text, &Text)>
    ensures { option_map (λ files. (files.0.now, files.1.now)) result ≡ replay_files words.now }
{
    if words.len() != 3 || words[0].as_str() != "replay" {
        return None;
    }
    Some((&words[1], &words[2]))
}

/// The capabilities that are asked for of the provider, where the words are `info CAPS`.
pub fn info_caps(words: &[Text]) -> Option<Caps>
    ensures { result ≡ info_caps words.now }
{
    if words.len() != 2 || words[0].as_str() != "info" {
        return None;
    }
    caps_in(words[1].as_str())
}

/// `-` asks for none; else the commas join those that are asked for.
#[tactic(auto, unfolding(crate::specs::Commands::caps_in))]
fn caps_in(caps: &str) -> Option<Caps>
    ensures { result ≡ caps_in caps.now }
{
    if caps == "-" {
        return Some(no_caps());
    }
    read_caps(caps.as_bytes()).ok()
}

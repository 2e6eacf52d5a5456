//! The words of the command.
ghost use Rattle.std.specs.Prelude.{◌≡◌, option_map};
ghost use Rattle.fab_command_runs.specs.Files.{coll_file};

use fab_base::Text;

/// The file of rounds, where the words are `coll FILE`.
pub fn coll_file(words: &[Text]) -> Option<&Text>
    ensures { option_map (λ file. file.now) result ≡ coll_file words.now }
{
    if words.len() != 2 || words[0].as_str() != "coll" {
        return None;
    }
    Some(&words[1])
}

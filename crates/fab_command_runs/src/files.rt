//! The file, loaded and read.
ghost use Rattle.std.specs.Prelude.{◌≡◌, ◌≤◌, Ok, IfOk, IfErr};
ghost use Rattle.fab_workloads.specs.Grammar.{verdict};
ghost use Rattle.fab_workloads.specs.Rounds.{AreWithin};
ghost use Rattle.fab_outside.specs.Outside.{one_more};
ghost use Rattle.fab_command_runs.specs.Files.{AreUnread, AreUnspelt, SpellsRounds};

use fab_base::{Status, Text};
use fab_outside::Depot;
use fab_outside::loading::{load_file, status_of};
use fab_workloads::{CollScript, read_rounds};
use std::alloc::Global;

/// The rounds that these bytes spell, or how the command ends.
fn read(alloc: Global, bytes: &[u8]) -> Result<CollScript, Status>
    ensures ok { IfOk result (λ script. verdict bytes.now ≡ Ok (script.peers, script.rounds)) }
    ensures within { IfOk result (λ script. AreWithin script.peers script.rounds) }
    ensures err { IfErr result (λ status. AreUnspelt bytes.now status) }
{
    read_rounds(alloc, bytes).map_err(status_of)
}

/// Loads the file of this name and reads the rounds that it spells, or says how the command ends.
pub(crate) fn load_rounds<D: Depot>(
    alloc: Global,
    depot: &mut D,
    name: &Text,
) -> Result<CollScript, Status>
    ensures files { D.files depot.new ≡ D.files depot.old }
    ensures loads { D.loaded depot.new ≡ one_more (D.loaded depot.old) name.now }
    ensures ok { IfOk result (λ script. SpellsRounds (D.files depot.old) name.now script.peers script.rounds) }
    ensures within { IfOk result (λ script. AreWithin script.peers script.rounds) }
    ensures err { IfErr result (λ status. AreUnread (D.files depot.old) name.now (D.faults depot.old) (D.faults depot.new) (D.failed_name depot.new) status) }
{
    let bytes = load_file(alloc, depot, name)?;
    read(alloc, bytes.as_slice())
}

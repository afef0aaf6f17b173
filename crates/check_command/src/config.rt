ghost use Rattle.std.specs.Prelude.{◌≡◌, ◌≤◌, IfErr, IfOk, OnOk, map, string_bytes};
ghost use Rattle.check_command.specs.Config as spec;
ghost use Rattle.front_ports.specs.FileMap.{KeepsFiles};
ghost use Rattle.command_ends.specs.Ports.{files_port};

use crate::words::read_check;
use command_ends::{Outcome, load_outcome, words_outcome};
use front_config::{Loaded, load};
use front_ports::Files;
use policy_rules::Policy;
use std::alloc::Global;

// The policy of what was loaded.
fn policy_of(loaded: Loaded) -> Policy
    ensures { result ≡ loaded.policy }
{
    let Loaded {
        tokens: _,
        policy,
        table: _,
        endpoints: _,
    } = loaded;
    policy
}

/// The policy of the file that the words name, or how `check` ends before it reads a log.
pub fn configure_check<F: Files>(
    alloc: Global,
    words: &Vec<String>,
    files: &mut F,
) -> Result<Policy, Outcome>
    ensures ok { IfOk result (λ policy. spec.Configures (map string_bytes words.now.items) (F.files files.old) policy) }
    ensures err { IfErr result (λ outcome. spec.IsRefused (map string_bytes words.now.items)
        (files_port (F.files files.old) (F.failed files.old) (F.faults files.old)
        (F.files files.new) (F.failed files.new) (F.faults files.new)) outcome.status outcome.why) }

    // Told files stay. The count of faults doesn't fall, and stays where nothing failed.
    ensures sound { OnOk result (F.faults files.new ≡ F.faults files.old) }
    ensures kept { KeepsFiles (F.files files.old) (F.files files.new) }
    ensures later { F.faults files.old ≤ F.faults files.new }
{
    let names = match read_check(alloc, words) {
        Ok(names) => names,
        Err(fault) => return Err(words_outcome("check", words, &fault)),
    };
    match load(alloc, &names, files) {
        Ok(loaded) => Ok(policy_of(loaded)),
        Err(fault) => Err(load_outcome(names, fault)),
    }
}

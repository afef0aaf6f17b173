ghost use Rattle.std.specs.Prelude.{◌≡◌, ◌≤◌, IfErr, IfOk, OnOk, map, string_bytes};
ghost use Rattle.front_ports.specs.FileMap.{KeepsFiles};
ghost use Rattle.command_ends.specs.Ports.{files_port};
ghost use Rattle.probe_command.specs.Config as spec;
ghost use Rattle.probe_command.specs.Token.{HasToken};

use crate::probe::{ProbeWords, read_probe};
use crate::refused::probe_outcome;
use crate::token::{read_token, token_outcome};
use command_ends::{Outcome, load_outcome};
use front_base::Text;
use front_config::{Loaded, load};
use front_ports::Files;
use std::alloc::Global;

/// What a run of `probe` begins with.
#[derive(Drop)]
pub struct ProbeConfig {
    pub words: ProbeWords,
    /// What the files that the words name say.
    pub loaded: Loaded,
    /// The token in the file that the words name for one.
    pub token: Option<Text>,
}

// The token in the file that the words name, beside what the other files say.
fn with_token<T: Files>(
    alloc: Global,
    told: ProbeWords,
    loaded: Loaded,
    tokens: &mut T,
) -> Result<ProbeConfig, Outcome>
    ensures ok { IfOk result (λ own. (own.words ≡ told) × (own.loaded ≡ loaded)
        × HasToken (T.files tokens.old) told.token_file own.token) }
    ensures err { IfErr result (λ outcome. spec.IsUntold told.token_file
        (files_port (T.files tokens.old) (T.failed tokens.old) (T.faults tokens.old)
        (T.files tokens.new) (T.failed tokens.new) (T.faults tokens.new)) outcome.status outcome.why) }
    ensures later { T.faults tokens.old ≤ T.faults tokens.new }
{
    match read_token(alloc, &told.token_file, tokens) {
        Ok(token) => Ok(ProbeConfig {
            words: told,
            loaded,
            token,
        }),
        Err(stop) => {
            drop(loaded);
            Err(token_outcome(told.token_file, stop))
        }
    }
}

/// What words and files tell a run of `probe`, or how it ends before anything is dialed. The words are those after the
/// program's name. The files are read only where the words are accepted, in the order of `front_config::Which`, and then the file with a
/// token, of `tokens`, where `-` may name what is no file.
pub fn configure_probe<F: Files, T: Files>(
    alloc: Global,
    words: &Vec<String>,
    files: &mut F,
    tokens: &mut T,
) -> Result<ProbeConfig, Outcome>
    ensures ok { IfOk result (λ told.
        spec.Configures (map string_bytes words.now.items) (F.files files.old) (T.files tokens.old) told) }
    ensures err { IfErr result (λ outcome. spec.IsRefused (map string_bytes words.now.items)
        (files_port (F.files files.old) (F.failed files.old) (F.faults files.old)
        (F.files files.new) (F.failed files.new) (F.faults files.new))
        (files_port (T.files tokens.old) (T.failed tokens.old) (T.faults tokens.old)
        (T.files tokens.new) (T.failed tokens.new) (T.faults tokens.new)) outcome.status outcome.why) }

    // The threshold is in its range, and there is a round.
    ensures within { IfOk result (λ told. (1 ≤ told.words.threshold) × (told.words.threshold ≤ 10)) }
    ensures rounds { IfOk result (λ told. 1 ≤ told.words.rounds) }

    // Told files stay. The count of faults doesn't fall, and stays where nothing failed.
    ensures sound { OnOk result (F.faults files.new ≡ F.faults files.old) }
    ensures kept { KeepsFiles (F.files files.old) (F.files files.new) }
    ensures later { F.faults files.old ≤ F.faults files.new }
    ensures tokens_later { T.faults tokens.old ≤ T.faults tokens.new }
{
    let told = match read_probe(alloc, words) {
        Ok(told) => told,
        Err(fault) => return Err(probe_outcome(words, fault)),
    };
    match load(alloc, &told.files, files) {
        Ok(loaded) => with_token(alloc, told, loaded, tokens),
        Err(fault) => Err(load_outcome(told.files, fault)),
    }
}

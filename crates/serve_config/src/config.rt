ghost use Rattle.std.specs.Prelude.{◌≡◌, ◌≤◌, IfErr, IfOk, OnOk, map, string_bytes};
ghost use Rattle.front_ports.specs.FileMap.{KeepsFiles};
ghost use Rattle.command_ends.specs.Ports.{files_port};
ghost use Rattle.serve_config.specs.Config as spec;
ghost use Rattle.serve_config.specs.Serve.{IsFit};

use crate::refused::serve_outcome;
use crate::serve::{ServeWords, read_serve};
use command_ends::{Outcome, load_outcome};
use front_config::{Loaded, load};
use front_ports::Files;
use std::alloc::Global;

/// What a run of `serve` begins with.
#[derive(Drop)]
pub struct ServeConfig {
    pub words: ServeWords,
    /// What the files that the words name say.
    pub loaded: Loaded,
}

/// What words and files tell a run of `serve`, or how it ends before anything is opened. The words are those after the
/// program's name. The files are read only where the words are accepted, in the order of `front_config::Which`.
pub fn configure_serve<F: Files>(
    alloc: Global,
    words: &Vec<String>,
    files: &mut F,
) -> Result<ServeConfig, Outcome>
    ensures ok { IfOk result (λ told.
        spec.Configures (map string_bytes words.now.items) (F.files files.old) told) }
    ensures fit { IfOk result (λ told. IsFit told.words) }
    ensures err { IfErr result (λ outcome. spec.IsRefused (map string_bytes words.now.items)
        (files_port (F.files files.old) (F.failed files.old) (F.faults files.old)
        (F.files files.new) (F.failed files.new) (F.faults files.new)) outcome.status outcome.why) }

    // Told files stay. The count of faults doesn't fall, and stays where nothing failed.
    ensures sound { OnOk result (F.faults files.new ≡ F.faults files.old) }
    ensures kept { KeepsFiles (F.files files.old) (F.files files.new) }
    ensures later { F.faults files.old ≤ F.faults files.new }
{
    let told = match read_serve(alloc, words) {
        Ok(told) => told,
        Err(fault) => return Err(serve_outcome(words, fault)),
    };
    match load(alloc, &told.files, files) {
        Ok(loaded) => Ok(ServeConfig {
            words: told,
            loaded,
        }),
        Err(fault) => Err(load_outcome(told.files, fault)),
    }
}

// What `resources` begins with.
ghost use Rattle.std.specs.Prelude.{◌≡◌, ◌≤◌, None, Some, IfErr, IfOk, OnOk, map, string_bytes};
ghost use Rattle.front_ports.specs.FileMap.{KeepsFiles};
ghost use Rattle.command_ends.specs.Ports.{files_port};
ghost use Rattle.resources_command.specs.Config as spec;

use crate::ended::ResourcesEnded;
use crate::previous::{PreviousFault, PreviousRefusal, PreviousStop, read_previous};
use crate::settings::Settings;
use crate::words::{ResourcesWords, read_resources};
use command_ends::{Outcome, Status, load_outcome, words_outcome};
use front_base::Text;
use front_config::{Loaded, load};
use front_ports::Files;
use group_resources::Merged;
use std::alloc::Global;

fn settings_of(loaded: Loaded, previous: Merged) -> Settings
    ensures table { result.table ≡ loaded.table }
    ensures endpoints { result.endpoints ≡ loaded.endpoints }
    ensures previous { result.previous ≡ previous }
{
    let Loaded {
        tokens: _,
        policy: _,
        table,
        endpoints,
    } = loaded;
    Settings {
        table,
        endpoints,
        previous,
    }
}

// How a run ends whose words or other files are refused.
fn ended_by(outcome: Outcome) -> ResourcesEnded
    ensures status { result.status ≡ outcome.status }
    ensures why { result.why ≡ outcome.why }
    ensures previous { result.previous ≡ None }
{
    let Outcome { status, why } = outcome;
    ResourcesEnded {
        status,
        why,
        previous: None,
    }
}

fn status_of(fault: PreviousFault) -> Status
    ensures { result ≡ spec.status_of_previous fault }
{
    match fault {
        PreviousFault::NotRead => Status::ReadFault,
        PreviousFault::TooLong | PreviousFault::BadLine { .. } => Status::Configuration,
    }
}

// How a run ends whose earlier document is refused.
fn ended_with(name: Text, stop: PreviousStop) -> ResourcesEnded
    ensures { spec.EndsWith name stop result.status result.why result.previous }
{
    match stop {
        PreviousStop::Refused(fault) => ResourcesEnded {
            status: status_of(fault),
            why: None,
            previous: Some(PreviousRefusal { name, fault }),
        },
        PreviousStop::NoMemory => ResourcesEnded {
            status: Status::NoMemory,
            why: None,
            previous: None,
        },
    }
}

// What the other files say, and the earlier document of that name.
fn with_previous<F: Files>(
    alloc: Global,
    loaded: Loaded,
    name: Option<Text>,
    files: &mut F,
) -> Result<Settings, ResourcesEnded>
    ensures table { IfOk result (λ settings. settings.table ≡ loaded.table) }
    ensures endpoints { IfOk result (λ settings. settings.endpoints ≡ loaded.endpoints) }
    ensures previous { IfOk result (λ settings. spec.HasPrevious (F.files files.old) name settings.previous) }
    ensures err { IfErr result (λ ended. spec.PreviousEnds name
        (files_port (F.files files.old) (F.failed files.old) (F.faults files.old)
        (F.files files.new) (F.failed files.new) (F.faults files.new)) ended.status ended.why ended.previous) }
    ensures sound { OnOk result (F.faults files.new ≡ F.faults files.old) }
    ensures kept { KeepsFiles (F.files files.old) (F.files files.new) }
    ensures later { F.faults files.old ≤ F.faults files.new }
{
    let Some(name) = name else {
        return Ok(settings_of(loaded, Merged::none(alloc)));
    };
    match read_previous(alloc, name.as_str(), files) {
        Ok(previous) => Ok(settings_of(loaded, previous)),
        Err(stop) => {
            drop(loaded);
            Err(ended_with(name, stop))
        }
    }
}

// What the files say that these words name.
fn configured<F: Files>(
    alloc: Global,
    own: ResourcesWords,
    files: &mut F,
) -> Result<Settings, ResourcesEnded>
    ensures ok { IfOk result (spec.Says (F.files files.old) own) }
    ensures err { IfErr result (λ ended. spec.FilesEnd own
        (files_port (F.files files.old) (F.failed files.old) (F.faults files.old)
        (F.files files.new) (F.failed files.new) (F.faults files.new)) ended.status ended.why ended.previous) }
    ensures sound { OnOk result (F.faults files.new ≡ F.faults files.old) }
    ensures kept { KeepsFiles (F.files files.old) (F.files files.new) }
    ensures later { F.faults files.old ≤ F.faults files.new }
{
    let ResourcesWords {
        names,
        previous,
        request_timeout: _,
    } = own;
    match load(alloc, &names, files) {
        Ok(loaded) => {
            drop(names);
            with_previous(alloc, loaded, previous, files)
        }
        Err(fault) => {
            drop(previous);
            Err(ended_by(load_outcome(names, fault)))
        }
    }
}

/// What the files say that the words name, or how `resources` ends before it asks anybody. The earlier document is read after the other
/// files.
pub fn configure_resources<F: Files>(
    alloc: Global,
    words: &Vec<String>,
    files: &mut F,
) -> Result<Settings, ResourcesEnded>
    ensures ok { IfOk result (spec.Configures (map string_bytes words.now.items) (F.files files.old)) }
    ensures err { IfErr result (λ ended. spec.IsRefused (map string_bytes words.now.items)
        (files_port (F.files files.old) (F.failed files.old) (F.faults files.old)
        (F.files files.new) (F.failed files.new) (F.faults files.new)) ended.status ended.why ended.previous) }

    // Told files stay. The count of faults doesn't fall, and stays where nothing failed.
    ensures sound { OnOk result (F.faults files.new ≡ F.faults files.old) }
    ensures kept { KeepsFiles (F.files files.old) (F.files files.new) }
    ensures later { F.faults files.old ≤ F.faults files.new }
{
    match read_resources(alloc, words) {
        Ok(own) => configured(alloc, own, files),
        Err(fault) => Err(ended_by(words_outcome("resources", words, &fault))),
    }
}

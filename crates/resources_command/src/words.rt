// The command lines of `resources`.
ghost use Rattle.std.specs.Prelude.{map, string_bytes};
ghost use Rattle.command_options.specs.Options.{Gives};
ghost use Rattle.resources_command.specs.Words as spec;

use command_options::names::{ENDPOINTS, PREVIOUS, REQUEST_TIMEOUT, SERVICES};
use command_options::{
    FileNames, Options, Ranged, WordsFault, file_names, given_of, in_range, number_given, text_of,
};
use front_base::Text;
use std::alloc::Global;

/// What `resources` is told.
#[derive(Debug, Drop)]
pub struct ResourcesWords {
    /// `--apiservices` and `--endpoints`.
    pub names: FileNames,
    /// `--previous`: the file with an earlier document.
    pub previous: Option<Text>,
    /// `--request-timeout-ms`: how long one request to a server may take in all, in milliseconds, from 1 to 600000.
    pub request_timeout: u64,
}

#[tactic(auto, unfolding(crate::specs::Words::timeout_in))]
fn timeout_in(options: &Options) -> Result<u64, WordsFault>
    ensures { Gives (λ n. n) result (spec.timeout_in options.now) }
{
    let number = number_given(Ranged::RequestTimeout, options)?;
    in_range(Ranged::RequestTimeout, number)
}

#[tactic(auto, unfolding(crate::specs::Words::words_by))]
fn words_by(alloc: Global, options: &Options) -> Result<ResourcesWords, WordsFault>
    ensures { Gives (λ v. v) result (spec.words_by options.now) }
{
    let request_timeout = timeout_in(options)?;
    let names = file_names(alloc, options)?;
    let previous = text_of(alloc, PREVIOUS, options)?;
    Ok(ResourcesWords {
        names,
        previous,
        request_timeout,
    })
}

fn words_of(alloc: Global, words: &[String]) -> Result<ResourcesWords, WordsFault>
    ensures { Gives (λ v. v) result (spec.words_of (map string_bytes words.now)) }
{
    match given_of(
        alloc,
        &[SERVICES, ENDPOINTS, PREVIOUS, REQUEST_TIMEOUT],
        words,
    ) {
        Ok(options) => words_by(alloc, &options),
        Err(fault) => Err(fault),
    }
}

/// What a command line of `resources` says. The words are those after the program's name, of which the first is the command's.
#[tactic(auto, unfolding(crate::specs::Words::resources_command))]
pub fn read_resources(alloc: Global, words: &Vec<String>) -> Result<ResourcesWords, WordsFault>
    ensures { Gives (λ v. v) result (spec.resources_command (map string_bytes words.now.items)) }
{
    match words.as_slice() {
        [word, options @ ..] if word.as_str() == "resources" => words_of(alloc, options),
        _ => Err(WordsFault::Usage),
    }
}

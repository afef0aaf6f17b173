// The command lines of `check`.
ghost use Rattle.std.specs.Prelude.{map, string_bytes};
ghost use Rattle.check_command.specs.Words as spec;
ghost use Rattle.command_options.specs.Options.{Gives};

use command_options::names::{ALL, POLICY, SUMMARY};
use command_options::{FileNames, WordsFault, file_names, given_of, with_flag};
use std::alloc::Global;

#[tactic(auto, unfolding(crate::specs::Words::names_given))]
fn names_given(alloc: Global, words: &[String]) -> Result<FileNames, WordsFault>
    ensures { Gives (λ v. v) result (spec.names_given (map string_bytes words.now)) }
{
    match given_of(alloc, &[POLICY, SUMMARY, ALL], words) {
        Ok(options) => Ok(file_names(alloc, &options)?),
        Err(fault) => Err(fault),
    }
}

fn names_of_all(alloc: Global, words: &[String]) -> Result<FileNames, WordsFault>
    ensures { Gives (λ v. v) result (spec.names_of_all (map string_bytes words.now)) }
{
    match with_flag(alloc, ALL, words) {
        Ok(words) => names_given(alloc, words.as_slice()),
        Err(fault) => Err(fault),
    }
}

fn names_of(alloc: Global, words: &[String]) -> Result<FileNames, WordsFault>
    ensures { Gives (λ v. v) result (spec.names_of (map string_bytes words.now)) }
{
    match with_flag(alloc, SUMMARY, words) {
        Ok(words) => names_of_all(alloc, words.as_slice()),
        Err(fault) => Err(fault),
    }
}

/// The files that a command line of `check` names. The words are those after the program's name, of which the first is the command's.
#[tactic(auto, unfolding(crate::specs::Words::check_command))]
pub fn read_check(alloc: Global, words: &Vec<String>) -> Result<FileNames, WordsFault>
    ensures { Gives (λ v. v) result (spec.check_command (map string_bytes words.now.items)) }
{
    match words.as_slice() {
        [word, options @ ..] if word.as_str() == "check" => names_of(alloc, options),
        _ => Err(WordsFault::Usage),
    }
}

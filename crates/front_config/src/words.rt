// The commands of the program.
ghost use Rattle.std.specs.Prelude.{map, string_bytes};
ghost use Rattle.command_options.specs.Options.{Gives};
ghost use Rattle.front_config.specs.Words as spec;

use crate::command::{Command, ExplainWords};
use command_options::names::{ENDPOINTS, MAX_EVENT_SIZE, MOMENT, POLICY, ROUTES, SERVICES, TOKENS};
use command_options::{
    Options, Ranged, WordsFault, file_names, given_of, in_range, is_given, number_given, with_flag,
};
use front_base::Moment;
use std::alloc::Global;

fn moment_of(micros: u64) -> Result<Moment, WordsFault>
    ensures { Gives (λ v. v) result (spec.moment_of micros) }
{
    match Moment::new(micros) {
        Some(moment) => Ok(moment),
        None => Err(WordsFault::Limits {
            option: Ranged::Moment,
            number: micros,
        }),
    }
}

#[tactic(auto, unfolding(crate::specs::Words::explain_by))]
fn explain_by(alloc: Global, options: &Options) -> Result<ExplainWords, WordsFault>
    ensures { Gives (λ v. v) result (spec.explain_by options.now) }
{
    let size = number_given(Ranged::MaxEventSize, options)?;
    let micros = number_given(Ranged::Moment, options)?;
    let max_event = in_range(Ranged::MaxEventSize, size)?;
    let moment = moment_of(micros)?;
    let files = file_names(alloc, options)?;
    Ok(ExplainWords {
        files,
        max_event,
        moment,
        routes: is_given(ROUTES, options),
    })
}

fn explain_of(alloc: Global, words: &[String]) -> Result<ExplainWords, WordsFault>
    ensures { Gives (λ v. v) result (spec.explain_of (map string_bytes words.now)) }
{
    let words = with_flag(alloc, ROUTES, words)?;
    match given_of(
        alloc,
        &[
            TOKENS,
            POLICY,
            SERVICES,
            ENDPOINTS,
            MAX_EVENT_SIZE,
            MOMENT,
            ROUTES,
        ],
        words.as_slice(),
    ) {
        Ok(options) => explain_by(alloc, &options),
        Err(fault) => Err(fault),
    }
}

/// What the words after the program's name ask for: the command's word first, and then its options in any order. An
/// option with a value is one word `--NAME=VALUE`, or two words `--NAME` and `VALUE`, of which the second doesn't begin
/// with a dash; no value is empty. A flag is the one word `--NAME`.
#[tactic(auto, unfolding(crate::specs::Words::command_of))]
pub fn read_words(alloc: Global, words: &Vec<String>) -> Result<Command, WordsFault>
    ensures { Gives (λ v. v) result (spec.command_of (map string_bytes words.now.items)) }
{
    match words.as_slice() {
        [word, options @ ..] if word.as_str() == "explain" => {
            Ok(Command::Explain(explain_of(alloc, options)?))
        }
        _ => Err(WordsFault::Usage),
    }
}

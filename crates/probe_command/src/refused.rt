// How a run of `probe` ends whose words are refused.
ghost use Rattle.std.specs.Prelude.{◌≡◌};
ghost use Rattle.probe_command.specs.Config as spec;

use crate::fault::ProbeFault;
use command_ends::{Outcome, Status, words_outcome};
use refusal_text::Refusal;

/// How a run ends whose words are refused.
pub fn probe_outcome(words: &Vec<String>, fault: ProbeFault) -> Outcome
    ensures status { result.status ≡ spec.status_of_probe fault }
    ensures why { spec.TellsProbe fault result.why }
{
    match fault {
        ProbeFault::Words(fault) => words_outcome("probe", words, &fault),
        ProbeFault::Front(text) => Outcome {
            status: Status::Configuration,
            why: Some(Refusal::Front(text)),
        },
        ProbeFault::Token => Outcome {
            status: Status::Configuration,
            why: Some(Refusal::Token),
        },
    }
}

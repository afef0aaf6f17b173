// How a run of `serve` ends whose words are refused.
ghost use Rattle.std.specs.Prelude.{◌≡◌};
ghost use Rattle.serve_config.specs.Config as spec;

use crate::fault::ServeFault;
use command_ends::{Outcome, Status, words_outcome};
use refusal_text::Refusal;

/// How a run ends whose words are refused.
pub fn serve_outcome(words: &Vec<String>, fault: ServeFault) -> Outcome
    ensures status { result.status ≡ spec.status_of_serve fault }
    ensures why { spec.TellsServe fault result.why }
{
    match fault {
        ServeFault::Words(fault) => words_outcome("serve", words, &fault),
        ServeFault::Listen(text) => Outcome {
            status: Status::Configuration,
            why: Some(Refusal::Listen(text)),
        },
        ServeFault::Webhook(url) => Outcome {
            status: Status::Configuration,
            why: Some(Refusal::Webhook(url)),
        },
        ServeFault::OwnWebhook(url) => Outcome {
            status: Status::Configuration,
            why: Some(Refusal::OwnWebhook(url)),
        },
    }
}

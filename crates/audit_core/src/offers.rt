ghost use Rattle.std.specs.Prelude.{◌≡◌};
ghost use Rattle.audit_core.specs.Offers as spec;

use crate::settings::Settings;
use crate::sinks::Sink;
use front_base::Stage;
use std::marker::Model;

/// What became of an event that a sink was due.
#[derive(Clone, Copy, Debug, PartialEq, Eq)]
pub enum Outcome {
    /// Its line waits in the buffer, or was written.
    Taken,
    /// The buffer had no room.
    Full,
    /// The line could not be written.
    Failed,
    /// It was not offered: even the line without objects has that many bytes, which are more than a line may have.
    TooLarge { size: u64 },
}

impl Outcome {
    /// Whether nothing was written: a write failed, or even the line without objects was too long.
    pub fn is_failed(self) -> bool
        ensures { result ≡ spec.is_failed self }
    {
        match self {
            Outcome::Failed | Outcome::TooLarge { .. } => true,
            Outcome::Taken | Outcome::Full => false,
        }
    }
}

/// One event that a sink was due.
#[derive(Clone, Copy, Debug, PartialEq, Eq)]
pub struct OfferNote {
    pub sink: Sink,
    pub stage: Stage,
    pub outcome: Outcome,
}

fn is_first(stage: Stage) -> bool
    ensures { result ≡ spec.is_first stage }
{
    match stage {
        Stage::RequestReceived => true,
        Stage::ResponseStarted | Stage::ResponseComplete | Stage::Panic => false,
    }
}

impl OfferNote {
    /// Whether its request is refused for it: a strict sink could not record the request's arrival.
    pub fn refuses(&self, settings: &Settings) -> bool
        ensures { result ≡ spec.refuses settings.now self.now }
    {
        is_first(self.stage) && settings.mode_of(self.sink).is_strict() && self.outcome.is_failed()
    }
}

/// Whether a strict sink could not record a request's arrival.
pub fn has_refused(settings: &Settings, notes: &[OfferNote]) -> bool
    ensures { result ≡ spec.has_refused settings.now notes.now }
{
    notes.iter().any(|note| note.refuses(settings))
}

/// The offers of an exchange, in order. Contracts see a list.
#[derive(Debug, Drop)]
pub struct Offers {
    notes: Vec<OfferNote>,
}

impl Model for Offers {
    ghost use Rattle.std.specs.Prelude.{List};
    ghost use Rattle.audit_core.specs.declared.offers.OfferNote.{OfferNote};

    ghost Value = { List OfferNote };

    ghost view = { λ o. o.notes.items };
}

impl Offers {
    /// Takes no memory.
    pub fn new(notes: Vec<OfferNote>) -> Offers
        ensures { result ≡ notes.items }
    {
        Offers { notes }
    }

    pub fn as_slice(&self) -> &[OfferNote]
        ensures { result.now ≡ self.now }
    {
        self.notes.as_slice()
    }
}

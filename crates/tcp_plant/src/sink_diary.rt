use crate::gate::TcpGate;
use crate::request_counts::RequestCounts;
use crate::sink_share::{Offered, SinkShare};
use crate::unreached::Unreached;
use audit_core::{OfferNote, Outcome, Sink};
use front_base::NoMemory;
use session_core::{Diary, Exchange, NoDiary};
use std::alloc::Global;
use std::io::Eprint;
use std::rt;
use std::sync::Wait;

/// Counts exchanges, the events that sinks were offered, and those that no sink took. It reports services that have no endpoint, and
/// keeps no exchange.
#[derive(Drop)]
pub struct SinkDiary<'b, R> {
    rt: &'b R,
    alloc: Global,
    requests: &'b RequestCounts,
    unreached: &'b Unreached,
    log: &'b SinkShare,
    hook: &'b SinkShare,
}

fn is_sink(this: Sink, that: Sink) -> bool {
    match (this, that) {
        (Sink::Log, Sink::Log) | (Sink::Webhook, Sink::Webhook) => true,
        (Sink::Log, Sink::Webhook) | (Sink::Webhook, Sink::Log) => false,
    }
}

// What became of the events of one exchange that this sink was due.
fn offered(notes: &[OfferNote], sink: Sink) -> Offered {
    let mut all = Offered::NONE;
    for note in notes {
        if is_sink(note.sink, sink) {
            match note.outcome {
                Outcome::TooLarge { .. } => all.large = all.large.saturating_add(1),
                Outcome::Full => all.full = all.full.saturating_add(1),
                Outcome::Taken | Outcome::Failed => all.kept = all.kept.saturating_add(1),
            }
        }
    }
    all
}

impl<'b, R: Wait + rt::Clock + Eprint> SinkDiary<'b, R> {
    pub(crate) fn new(rt: &'b R, alloc: Global, gate: &'b TcpGate) -> SinkDiary<'b, R> {
        SinkDiary {
            rt,
            alloc,
            requests: &gate.requests,
            unreached: &gate.unreached,
            log: &gate.log,
            hook: &gate.hook,
        }
    }

    // Each event is due to all sinks, so the sink with the most has all of them.
    fn count(&self, status: u16, notes: &[OfferNote]) {
        let (log, hook) = (offered(notes, Sink::Log), offered(notes, Sink::Webhook));
        self.requests.add(status, log.all().max(hook.all()));
        self.log.offered(self.rt, log);
        self.hook.offered(self.rt, hook);
    }
}

impl<'b, R: Wait + rt::Clock + Eprint> Diary for SinkDiary<'b, R> {
    ghost use Rattle.std.specs.Prelude.{None, true};

    ghost notes = { λ _. None };

    ghost has_room = { λ _. true };

    fn ready(&mut self, _alloc: Global) -> Result<(), NoMemory> {
        Ok(())
    }

    // What is done with the exchange is `NoDiary`'s, whose proof drops it.
    fn note(&mut self, exchange: Exchange) {
        self.count(exchange.facts.status, exchange.offers.as_slice());
        self.unreached.note(self.rt, self.alloc, &exchange);
        NoDiary.note(exchange);
    }
}

ghost use Rattle.std.specs.Prelude.{false};
ghost use Rattle.truncate_backend.specs.Lanes.{Offered};
ghost use Rattle.truncate_backend.specs.Owns.{own_tells};

use crate::lane::{Lane, Offer};
use crate::sink::BatchSink;
use front_base::Line;

/// The lane of a sink that is written to at once, one line a try. It accepted the lines of the sink's tries that are
/// Done, and tried those of all of them.
#[derive(Drop)]
pub struct OwnLane<S> {
    pub sink: S,
}

impl<S: BatchSink + Drop> Lane for OwnLane<S> {
    ghost use Rattle.std.specs.Prelude.{None, [], false};
    ghost use Rattle.truncate_backend.specs.Owns.{own_tells};

    ghost tells = { λ l. own_tells (S.tells l.sink) };

    ghost bay = { λ _. None };

    ghost home = { λ _. [] };

    ghost queued = { λ _. false };

    fn offer(&mut self, line: Line) -> Offer {
        offer_own(&mut self.sink, line)
    }
}

fn offer_own<S: BatchSink>(sink: &mut S, line: Line) -> Offer
    ensures { Offered (own_tells (S.tells sink.old)) line false result (own_tells (S.tells sink.new)) }
{
    let lines = std::slice::from_ref(&line);
    match sink.put(lines) {
        Ok(()) => Offer::Taken,
        Err(_) => Offer::Failed(line),
    }
}

use front_base::Line;
use shared_queue::QueueLane;
use std::sync::Wait;
use truncate_backend::{BatchSink, Lane, Offer, OwnLane};

/// Where a bay offers its lines for one sink.
#[derive(Drop)]
pub enum AnyLane<S, R: Wait + Copy + Drop> {
    /// The sink is off. Each line that is offered all the same fails; how many did, up to the last value of the type.
    Off(u64),
    /// The bay's lane of the queue that all bays share, in batch mode.
    Queue(QueueLane<R>),
    /// A sink of the bay's own, in the modes blocking and strict.
    Own(OwnLane<S>),
}

impl<S: BatchSink + Drop, R: Wait + Copy + Drop> Lane for AnyLane<S, R> {
    ghost use Rattle.std.specs.Option.{ForSome};
    ghost use Rattle.std.specs.Prelude.{◌≡◌};
    ghost use Rattle.truncate_backend.specs.Lanes.{Offered};
    ghost use Rattle.any_lane.specs.Lanes.{any_tells, any_bay, any_home, any_queued, OfferedAny};

    ghost tells = { any_tells S.BatchSink };

    ghost bay = { any_bay };

    ghost home = { any_home };

    ghost queued = { any_queued };

    fn offer(&mut self, line: Line) -> Offer
        requires { ForSome (any_bay self.old) (λ b. line.bay ≡ b) }
        ensures fixed { (any_bay self.new ≡ any_bay self.old)
            × (any_home self.new ≡ any_home self.old)
            × (any_queued self.new ≡ any_queued self.old) }
        ensures offered { Offered (any_tells S.BatchSink self.old) line (any_queued self.old) result
            (any_tells S.BatchSink self.new) }
        ensures exact { OfferedAny S.BatchSink self.old line result self.new }
    {
        match self {
            AnyLane::Off(failed) => {
                *failed = failed.saturating_add(1);
                Offer::Failed(line)
            }
            AnyLane::Queue(lane) => Lane::offer(lane, line),
            AnyLane::Own(lane) => Lane::offer(lane, line),
        }
    }
}

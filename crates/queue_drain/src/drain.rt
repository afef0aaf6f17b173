ghost use Rattle.std.specs.Prelude.{◌≡◌, ◌<◌, ◌≤◌, [], IfOk, IfSome};
ghost use Rattle.batch_backend.specs.Pumps.{is_rest};
ghost use Rattle.shared_queue.specs.Queues.{AreOneQueue, outlet_tells, outlet_home};
ghost use Rattle.queue_drain.specs.Drains.{Accounts, RanDrain, EndsDrain, EndsTimed, drain_state, drain_outlet};
ghost use Rattle.truncate_backend.specs.Tries.{KeepsSent};

use crate::drain_end::DrainEnd;
use batch_backend::{Drainer, Limits};
use front_base::{Moment, NoMemory};
use front_ports::Clock;
use role_threads::Role;
use shared_queue::{QueueLane, QueueOutlet, finish, pops_keep_the_parts};
use std::alloc::Global;
use std::sync::Wait;
use std::sync::atomic::{AtomicUsize, Ordering};
use truncate_backend::{BatchSink, tries_join, tries_keep_what_was_sent};

/// The drainer of a queue, with its sink and its clock.
#[derive(Drop)]
pub struct QueueDrain<S, R: Wait + Copy + Drop, K> {
    outlet: QueueOutlet<R>,
    sink: S,
    clock: K,
    drainer: Drainer,
    // How many lines were written and lost so far.
    written: u64,
    lost: u64,
    // The first and the last moment that it went by.
    began: Moment,
    last: Moment,
}

// The later one.
fn later(a: Moment, b: Moment) -> Moment
    ensures least { (a ≤ result) × (b ≤ result) }
    ensures last { a ≤ b → result ≡ b }
{
    if a.micros() < b.micros() { b } else { a }
}

impl<S: BatchSink, R: Wait + Copy + Drop, K: Clock> QueueDrain<S, R, K> {
    /// A drainer that took nothing yet. It takes all of its memory here.
    pub fn start(
        alloc: Global,
        outlet: QueueOutlet<R>,
        sink: S,
        mut clock: K,
        limits: Limits,
    ) -> Result<QueueDrain<S, R, K>, NoMemory>
    where
        S: Drop,
        K: Drop,
        requires limits { 0 < limits.lines }
        requires outlet { (outlet_tells outlet).taken ≡ Some [] }
        requires sink { IfSome (S.tells sink).tries (λ tries. tries ≡ [])
            × ((S.tells sink).faults ≡ 0) × ((S.tells sink).refusals ≡ 0) }
        requires clock { IfSome (K.given clock) (λ moments. moments ≡ []) }
        ensures home { IfOk result (λ drain. (drain_state S.BatchSink K.Clock drain).home ≡ outlet_home outlet) }
        ensures limits { IfOk result (λ drain. (drain_state S.BatchSink K.Clock drain).limits ≡ limits) }
        ensures sink { IfOk result (λ drain. (drain_state S.BatchSink K.Clock drain).sink ≡ S.tells sink) }
        ensures accounts { IfOk result (λ drain. Accounts (drain_state S.BatchSink K.Clock drain)) }
    {
        let drainer = Drainer::start(alloc, limits)?;
        let began = clock.now();
        Ok(QueueDrain {
            outlet,
            sink,
            clock,
            drainer,
            written: 0,
            lost: 0,
            began,
            last: began,
        })
    }

    // One pump, and whether there was no line to take.
    fn step(&mut self) -> bool
        ensures { RanDrain S.BatchSink K.Clock self.old self.new }
    {
        tries_join();
        let now = later(self.last, self.clock.now());
        self.last = now;
        let answer = self.drainer.pump(&mut self.outlet, &mut self.sink, now);
        self.written = self.written.saturating_add(answer.wrote());
        self.lost = self.lost.saturating_add(answer.lost());
        answer.rests()
    }

    /// Takes all lanes of the queue back, and puts what is left.
    pub fn finish(self, lanes: Vec<QueueLane<R>>) -> DrainEnd<S, K>
        requires queue { AreOneQueue lanes.items (drain_outlet self) }
        requires accounts { Accounts (drain_state S.BatchSink K.Clock self) }
        ensures ends { EndsDrain (drain_state S.BatchSink K.Clock self).limits lanes.items (S.tells result.sink) result.written result.lost
            result.fulls result.began result.ended (K.given result.clock) }
        ensures sent { KeepsSent (drain_state S.BatchSink K.Clock self).sink (S.tells result.sink) }
        ensures timed { EndsTimed K.Clock result }
    {
        tries_join();
        pops_keep_the_parts();
        let QueueDrain {
            outlet,
            mut sink,
            mut clock,
            mut drainer,
            written,
            lost,
            began,
            last,
        } = self;
        let mut end = finish(lanes, outlet);
        let fulls = end.fulls();
        let now = later(last, clock.now());
        let (more, unwritten) = drainer.flush_all(&mut end, &mut sink, now);
        DrainEnd {
            sink,
            clock,
            written: written.saturating_add(more),
            lost: lost.saturating_add(unwritten),
            fulls,
            began: began.micros(),
            ended: now.micros(),
        }
    }
}

impl<S: BatchSink, R: Wait + Copy + Drop, K: Clock> Role<R> for QueueDrain<S, R, K> {
    ghost use Rattle.queue_drain.specs.Drains.{RanDrain};

    ghost ran = { RanDrain S.BatchSink K.Clock };

    /// Pumps until so many bays have ended and then no line is there, and rests a little wherever none is. Lines that wait for
    /// a whole batch may still wait.
    fn run(&mut self, rt: &R, ended: &AtomicUsize, bays: usize) {
        tries_keep_what_was_sent();
        for _ in rt.forever() {
            // Counted before the pump: a line of the last bay that ended is there then.
            let last = ended.load(Ordering::SeqCst) >= bays;
            if self.step() {
                if last {
                    break;
                }
                self.clock.rest();
            }
        }
    }
}

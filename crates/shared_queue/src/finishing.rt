ghost use Rattle.std.specs.Prelude.{◌≡◌, ◌-◌, ◌^◌, [], true, min, All, map, sum_by};
ghost use Rattle.crossbeam_queue.specs.Passes.{view, IsPassOf};
ghost use Rattle.shared_queue.specs.Rule.{end_of, with_ended};
ghost use Rattle.shared_queue.specs.Queues.{AreOneQueue, IsQueueEnd, KeepsParts};
ghost use Rattle.shared_queue.specs.Lanes.{lane_fulls};

use crate::lane::QueueLane;
use crate::outlet::QueueOutlet;
use crate::queue_end::QueueEnd;
use crate::rule::{EndPop, LaneBack, LineQueue, OutletBack};
use crate::views::View;
use crossbeam_queue::Pass;
use front_base::Line;
use std::sync::Wait;

// A lane comes back to the maker. How often it was Full.
fn end_lane<R: Wait + Copy + Drop>(
    queue: &LineQueue,
    maker: &mut Pass<Line, View>,
    lane: QueueLane<R>,
) -> u64
    requires pass { IsPassOf queue.now maker.old × (lane.pass.table_id ≡ maker.old.table_id) }
    requires makes { (view maker.old).makes ≡ true }
    ensures maker { IsPassOf queue.now maker.new × (maker.new.table_id ≡ maker.old.table_id)
        × (view maker.new ≡ with_ended (view maker.old) (view lane.pass)) }
    ensures result { result ≡ lane_fulls lane }
{
    let QueueLane {
        rt: _,
        queue: theirs,
        pass,
        bay: _,
        beyond,
        refusals,
        capacity: _,
        allotment: _,
        count: _,
    } = lane;
    queue.absorb::<LaneBack>(maker, pass);
    drop(theirs);
    beyond.saturating_add(refusals.count())
}

// All lanes come back to the maker. How often they were Full, all together.
fn end_lanes<R: Wait + Copy + Drop>(
    queue: &LineQueue,
    maker: &mut Pass<Line, View>,
    lanes: Vec<QueueLane<R>>,
) -> u64
    requires pass { IsPassOf queue.now maker.old × All (λ l. l.pass.table_id ≡ maker.old.table_id) lanes.items }
    requires makes { ((view maker.old).makes ≡ true) × ((view maker.old).ended ≡ []) }
    ensures maker { IsPassOf queue.now maker.new × (maker.new.table_id ≡ maker.old.table_id)
        × (view maker.new ≡ record (view maker.old) { ended = map (λ l. end_of (view l.pass)) lanes.items }) }
    ensures result { result ≡ min (sum_by lane_fulls lanes.items) (2 ^ 64 - 1) }
{
    let mut fulls = 0u64;
    for lane in lanes {
        fulls = fulls.saturating_add(end_lane(queue, maker, lane));
    }
    fulls
}

/// The end of a queue, of which all lanes and the outlet are given, so that nobody pushes any more.
pub fn finish<R: Wait + Copy + Drop>(
    lanes: Vec<QueueLane<R>>,
    outlet: QueueOutlet<R>,
) -> QueueEnd<R>
    requires { AreOneQueue lanes.items outlet }
    ensures end { IsQueueEnd lanes.items outlet result }
    ensures parts { KeepsParts result }
{
    let QueueOutlet {
        rt,
        queue,
        pass,
        mut maker,
        empties,
        capacity,
    } = outlet;
    let fulls = end_lanes(&queue, &mut maker, lanes);
    queue.absorb::<OutletBack>(&mut maker, pass);
    queue.len_as::<EndPop, R>(&rt, &mut maker);
    QueueEnd {
        rt,
        queue,
        pass: maker,
        empties,
        fulls,
        capacity,
    }
}

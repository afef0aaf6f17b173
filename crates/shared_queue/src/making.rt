ghost use Rattle.std.specs.Prelude.{◌≡◌, ◌<◌, ◌≤◌, ◌+◌, true, false, IfOk, All, length};
ghost use Rattle.std.specs.Arc.{arc_value};
ghost use Rattle.crossbeam_queue.specs.Passes.{view, IsPassOf, ruled_capacity};
ghost use Rattle.shared_queue.specs.Rule.{opening, with_allotments, maker_at, lane_at};
ghost use Rattle.shared_queue.specs.Lanes.{lane_fulls};
ghost use Rattle.shared_queue.specs.Queues.{IsNewQueue};

use crate::lane::QueueLane;
use crate::outlet::QueueOutlet;
use crate::refusals::Refusals;
use crate::rule::{Allotments, LineQueue, NewLane, NewOutlet, SetAllotments};
use crate::views::View;
use crossbeam_queue::Pass;
use front_base::{Line, NoMemory};
use std::alloc::Global;
use std::marker::Brand;
use std::sync::{Arc, Wait};

/// The most lanes that a queue may have.
pub const MOST_LANES: usize = 1024;

/// The most lines that a lane may be allotted: three for each request number that a bay may give.
pub const MOST_ALLOTTED: u64 = 844_424_930_131_968;

fn set_allotments<N: Allotments>(queue: &LineQueue, maker: &mut Pass<Line, View>, allots: &Vec<u64>)
    requires picked { allots.now.items ≡ N.allotments }
    requires pass { IsPassOf queue.now maker.old }
    requires view { ((view maker.old).makes ≡ true) × ((view maker.old).pops ≡ true)
        × ((view maker.old).pushes ≡ false) × ((view maker.old).made ≡ 0) }
    ensures pass { IsPassOf queue.now maker.new × (maker.new.table_id ≡ maker.old.table_id) }
    ensures view { view maker.new ≡ with_allotments allots.now.items (view maker.old) }
{
    let _spent = queue.another::<SetAllotments<N>>(maker);
}

// The maker of a queue that has no lane yet.
fn begin(
    alloc: Global,
    capacity: u32,
    allots: &Vec<u64>,
) -> Result<(LineQueue, Pass<Line, View>), NoMemory>
    requires { 0 < capacity }
    ensures { IfOk result (λ r. (ruled_capacity r.0 ≡ capacity) × IsPassOf r.0 r.1
        × (view r.1 ≡ with_allotments allots.now.items opening)) }
{
    let (queue, mut maker) = LineQueue::ruled(alloc, capacity as usize)?;
    set_allotments::<Brand>(&queue, &mut maker, allots);
    Ok((queue, maker))
}

fn next_lane<R: Wait + Copy + Drop>(
    rt: R,
    queue: &Arc<LineQueue>,
    maker: &mut Pass<Line, View>,
    bay: u16,
    capacity: u32,
    allots: &Vec<u64>,
) -> Result<QueueLane<R>, NoMemory>
    requires pass { IsPassOf (arc_value queue.now) maker.old }
    requires view { view maker.old ≡ maker_at allots.now.items bay }
    requires bay { bay < length allots.now.items }
    requires capacity { capacity ≡ ruled_capacity (arc_value queue.now) }
    ensures maker { IfOk result (λ _. IsPassOf (arc_value queue.now) maker.new
        × (maker.new.table_id ≡ maker.old.table_id) × (view maker.new ≡ maker_at allots.now.items (bay + 1))) }
    ensures lane { IfOk result (λ l. (l.bay ≡ bay) × (lane_fulls l ≡ 0) × (l.capacity ≡ capacity)
        × (l.pass.table_id ≡ maker.old.table_id) × (view l.pass ≡ lane_at allots.now.items bay)) }
{
    let theirs = Arc::try_clone(queue)?;
    let pass = queue.another::<NewLane>(maker);
    Ok(QueueLane {
        rt,
        queue: theirs,
        pass,
        bay,
        beyond: 0,
        refusals: Refusals::none(),
        capacity,
        allotment: allots[usize::from(bay)],
        count: 0,
    })
}

/// A queue of at most `capacity` lines, with a lane for each allotment and one outlet. The lanes' bays are 0, 1 and so on, and
/// each lane accepts at most its allotment of lines. All memory is taken here.
pub fn make_queue<R: Wait + Copy + Drop>(
    rt: R,
    alloc: Global,
    capacity: u32,
    allots: Vec<u64>,
) -> Result<(Vec<QueueLane<R>>, QueueOutlet<R>), NoMemory>
    requires capacity { 0 < capacity }
    requires lanes { (0 < length allots.items) × (length allots.items ≤ MOST_LANES) }
    requires allotted { All (λ n. n ≤ MOST_ALLOTTED) allots.items }
    ensures { IfOk result (λ r. IsNewQueue capacity allots.items r.0.items r.1) }
{
    let (queue, mut maker) = begin(alloc, capacity, &allots)?;
    let pass = queue.another::<NewOutlet>(&mut maker);
    let queue = Arc::new(alloc, queue)?;
    let mut lanes = Vec::with_capacity(alloc, allots.len())?;
    let bays = allots.len() as u16;
    for bay in 0..bays {
        let lane = next_lane(rt, &queue, &mut maker, bay, capacity, &allots)?;
        lanes.push(lane)?;
    }
    let outlet = QueueOutlet {
        rt,
        queue,
        pass,
        maker,
        empties: 0,
        capacity,
    };
    Ok((lanes, outlet))
}

// The lanes of all bays for a sink.
ghost use Rattle.std.specs.Prelude.{◌≡◌, ◌≤◌, IfOk, OnErr, All, length, replicate};
ghost use Rattle.front_plants.specs.Fresh.{IsNewSink};
ghost use Rattle.front_plants.specs.Plants.{HasCause};
ghost use Rattle.serve_bays.specs.LaneCalls.{CalledInPart, CallsPart, allot_calls};
ghost use Rattle.serve_bays.specs.Lanes.{AreAllotted, MadeFor};
ghost use Rattle.serve_bays.specs.Options.{AreFit};
ghost use Rattle.serve_bays.specs.Sides.{side_call, side_opens};
ghost use Rattle.shared_queue.specs.declared.making.TheConstants.{MOST_ALLOTTED};
ghost use Rattle.truncate_backend.specs.Told.{Joined};

use crate::options::RunOptions;
use crate::sides::SinkSide;
use audit_core::SinkMode;
use front_base::NoMemory;
use front_plants::{Plant, PlantFail};
use sink_lanes::{SinkLanes, off_lanes, own_lanes, queued_lanes};
use std::alloc::Global;

// The allotments of the bays.
fn ask_allotments<P: Plant>(alloc: Global, plant: &mut P, bays: u16) -> Result<Vec<u64>, NoMemory>
    ensures allotted { IfOk result (λ allots. AreAllotted P.opens.allots bays allots.items) }
    ensures most { IfOk result (λ allots. All (λ n. n ≤ MOST_ALLOTTED) allots.items) }
    ensures plant { ((P.tells plant.new).faults ≡ (P.tells plant.old).faults) × ((P.tells plant.new).due ≡ (P.tells plant.old).due) }
    ensures called { IfOk result (λ allots. Joined (P.tells plant.old).made (allot_calls 0 allots.items) (P.tells plant.new).made) }
    ensures uncalled { OnErr result ((P.tells plant.new).made ≡ (P.tells plant.old).made) }
{
    let mut allots = Vec::with_capacity(alloc, usize::from(bays))?;
    for bay in 0..bays {
        allots.push_reserved(plant.allot(bay));
    }
    Ok(allots)
}

// A sink for each bay.
fn open_sinks<P: Plant, Q: SinkSide<P>>(
    alloc: Global,
    plant: &mut P,
    options: &RunOptions,
) -> Result<Vec<Q::S>, PlantFail>
    ensures count { IfOk result (λ sinks. length sinks.items ≡ options.now.bays) }
    ensures new { IfOk result (λ sinks. All (λ sink. IsNewSink (side_opens P.opens options.now Q.sink) (Q.S.tells sink)) sinks.items) }
    ensures called { IfOk result (λ sinks. Joined (P.tells plant.old).made (replicate options.now.bays (side_call options.now Q.sink))
        (P.tells plant.new).made) }
    ensures stopped { OnErr result (CallsPart (replicate options.now.bays (side_call options.now Q.sink)) (P.tells plant.old).made
        (P.tells plant.new).made) }
    ensures cause { HasCause (P.tells plant.old).faults result (P.tells plant.new).faults }
    ensures due { (P.tells plant.new).due ≡ (P.tells plant.old).due }
{
    let mut sinks = Vec::new(alloc);
    for _ in 0..options.bays {
        if sinks.reserve(1).is_err() {
            return Err(PlantFail::NoMemory);
        }
        let sink = Q::open(alloc, plant, options)?;
        sinks.push_reserved(sink);
    }
    Ok(sinks)
}

/// The lanes for a sink, and its drainer in batch mode.
pub fn side_lanes<P: Plant, Q: SinkSide<P>>(
    rt: &P::Rt,
    alloc: Global,
    plant: &mut P,
    options: &RunOptions,
    mode: SinkMode,
) -> Result<SinkLanes<Q::S, P::Rt, P::K>, PlantFail>
    requires { AreFit options.now }
    ensures made { IfOk result (λ made. MadeFor Q.S.BatchSink P.K.Clock (side_opens P.opens options.now Q.sink) (side_call options.now Q.sink) mode
        options.now.bays options.now.buffer options.now.limits made.lanes.items made.drain (P.tells plant.old).made (P.tells plant.new).made) }
    ensures stopped { OnErr result (CalledInPart (side_call options.now Q.sink) options.now.bays mode
        (P.tells plant.old).made (P.tells plant.new).made) }
    ensures cause { HasCause (P.tells plant.old).faults result (P.tells plant.new).faults }
    ensures due { (P.tells plant.new).due ≡ (P.tells plant.old).due }
{
    match mode {
        SinkMode::Off => Ok(off_lanes(alloc, options.bays)?),
        SinkMode::Batch => {
            let allots = ask_allotments(alloc, plant, options.bays)?;
            let sink = Q::open(alloc, plant, options)?;
            let clock = plant.clock();
            let (buffer, limits) = (options.buffer, options.limits);
            Ok(queued_lanes(*rt, alloc, buffer, allots, sink, clock, limits)?)
        }
        SinkMode::Blocking | SinkMode::Strict => {
            let sinks = open_sinks::<P, Q>(alloc, plant, options)?;
            Ok(own_lanes(alloc, sinks)?)
        }
    }
}

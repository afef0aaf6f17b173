// The sinks of a run, and how a plant opens each.
ghost use Rattle.std.specs.Prelude.{◌∷◌, [], IfOk};
ghost use Rattle.audit_core.specs.declared.sinks.Sink.{Sink};
ghost use Rattle.audit_core.specs.declared.sinks.Sink.TheVariants.{Log, Webhook};
ghost use Rattle.front_plants.specs.Fresh.{IsNewSink};
ghost use Rattle.front_plants.specs.Plants.{Called, HasCause};
ghost use Rattle.serve_bays.specs.Sides.{side_call, side_opens};

use crate::options::RunOptions;
use front_plants::{Plant, PlantFail};
use std::alloc::Global;
use truncate_backend::BatchSink;

/// A sink of a run over a plant: its log, or its webhook.
pub trait SinkSide<P: Plant> {
    type S: BatchSink + Drop;

    /// Which one it is.
    ghost sink: { Sink };

    /// Opens it where the words of the run say.
    fn open(alloc: Global, plant: &mut P, options: &RunOptions) -> Result<Self::S, PlantFail>
        ensures called { Called (P.tells plant.old) (side_call options.now sink ∷ []) (P.tells plant.new) }
        ensures cause { HasCause (P.tells plant.old).faults result (P.tells plant.new).faults }
        ensures fresh { IfOk result (λ opened. IsNewSink (side_opens P.opens options.now sink) (Self.S.tells opened)) };
}

/// The log of a run.
pub struct LogSide;

impl<P: Plant> SinkSide<P> for LogSide {
    type S = P::W;

    ghost sink = { Log };

    fn open(alloc: Global, plant: &mut P, options: &RunOptions) -> Result<P::W, PlantFail> {
        plant.log(alloc, options.log_path.as_str())
    }
}

/// The webhook of a run.
pub struct WebhookSide;

impl<P: Plant> SinkSide<P> for WebhookSide {
    type S = P::H;

    ghost sink = { Webhook };

    fn open(alloc: Global, plant: &mut P, options: &RunOptions) -> Result<P::H, PlantFail> {
        plant.hook(alloc, options.hook_url.as_str())
    }
}

ghost use Rattle.std.specs.Prelude.{◌≡◌, ◌≤◌, [], ◌∷◌, ℕ, IfOk, IfSome};
ghost use Rattle.front_plants.specs.Fresh.{IsNewDoor, IsNewDial, IsNewSink, IsNewClock, Openings, log_opens, hook_opens};
ghost use Rattle.front_plants.specs.Plants.{PlantTells, Called, Opened, HasCause, IfPort};
ghost use Rattle.front_plants.specs.declared.call.PlantCall.TheVariants as calls;
ghost use Rattle.front_plants.specs.declared.call.PlantPort.TheVariants as ports;
ghost use Rattle.front_plants.specs.declared.plant.TheConstants.{MOST_ALLOTTED};

use crate::call::PlantFail;
use front_base::Address;
use front_ports::{Clock, Dial, Door};
use session_core::Diary;
use std::alloc::Global;
use std::sync::Wait;
use std::thread::Threads;
use truncate_backend::BatchSink;

/// The most lines that a bay's lane may be allotted: three for each of the 2^48 requests that a bay may number.
pub const MOST_ALLOTTED: u64 = 844_424_930_131_968;

/// Makes the handles of a run: all that it takes from the outside.
pub trait Plant {
    /// Starts threads, and waits.
    type Rt: Threads + Wait + Copy + Drop;
    /// Where a bay's connections come from.
    type D: Door + Drop;
    /// Opens a bay's links to backends.
    type L: Dial + Drop;
    /// The clock of a bay, or of a drainer.
    type K: Clock + Drop;
    /// Where a bay's exchanges are noted.
    type Y: Diary + Drop;
    /// The audit log.
    type W: BatchSink + Drop;
    /// The audit webhook.
    type H: BatchSink + Drop;

    /// Its calls, the connections that the doors to come will give, how often a call failed, and which one failed last.
    ghost tells: { Self → PlantTells Self.D.C };

    /// What its new logs and webhooks tell of the bytes that their ports were given.
    ghost opens: { Openings };

    /// The word that the audit IDs of this run begin with.
    fn boot(&mut self) -> u64
        ensures called { Called (tells self.old) (calls.Boot result ∷ []) (tells self.new) }
        ensures faults { (tells self.new).faults ≡ (tells self.old).faults };

    /// How many lines the lanes of this bay may have in a queue that all bays share.
    fn allot(&mut self, bay: u16) -> u64
        ensures most { result ≤ MOST_ALLOTTED }
        ensures fixed { IfSome (opens.allots bay) (λ allotment. result ≡ allotment) }
        ensures called { Called (tells self.old) (calls.Allot bay result ∷ []) (tells self.new) }
        ensures faults { (tells self.new).faults ≡ (tells self.old).faults };

    /// The door of this bay, which gives so many connections at most, where 0 stands for no end.
    fn door(
        &mut self,
        alloc: Global,
        listen: Address,
        bay: u16,
        connections: u64,
    ) -> Result<Self::D, PlantFail>
        ensures called { Opened (tells self.old) bay (calls.Door listen bay connections ∷ []) (tells self.new) }
        ensures cause { HasCause (tells self.old).faults result (tells self.new).faults }
        ensures at { IfPort result (λ fault. fault.port ≡ ports.Door) }
        ensures fresh { IfOk result (λ door.
            IsNewDoor (Self.D.given door) (Self.D.closes door) (Self.D.faults door)) }
        ensures due { IfOk result (λ door. Self.D.left door ≡ (tells self.old).due bay) };

    /// What this bay opens its links with.
    fn dial(&mut self, alloc: Global, bay: u16) -> Result<Self::L, PlantFail>
        ensures called { Called (tells self.old) (calls.Dial bay ∷ []) (tells self.new) }
        ensures cause { HasCause (tells self.old).faults result (tells self.new).faults }
        ensures at { IfPort result (λ fault. fault.port ≡ ports.Dial) }
        ensures fresh { IfOk result (λ dial.
            IsNewDial (Self.L.calls dial) (Self.L.faults dial) (Self.L.link_faults dial)) };

    fn clock(&mut self) -> Self::K
        ensures called { Called (tells self.old) (calls.Clock ∷ []) (tells self.new) }
        ensures faults { (tells self.new).faults ≡ (tells self.old).faults }
        ensures fresh { IsNewClock (Self.K.given result) (Self.K.last result) };

    fn diary(&mut self, alloc: Global) -> Self::Y
        ensures called { Called (tells self.old) (calls.Diary ∷ []) (tells self.new) }
        ensures faults { (tells self.new).faults ≡ (tells self.old).faults }
        ensures fresh { IfSome (Self.Y.notes result) (λ notes. notes ≡ []) };

    /// The log of this path.
    fn log(&mut self, alloc: Global, path: &str) -> Result<Self::W, PlantFail>
        ensures called { Called (tells self.old) (calls.Log path.now ∷ []) (tells self.new) }
        ensures cause { HasCause (tells self.old).faults result (tells self.new).faults }
        ensures at { IfPort result (λ fault. fault.port ≡ ports.Log) }
        ensures fresh { IfOk result (λ log. IsNewSink (log_opens opens) (Self.W.tells log)) };

    /// The webhook at this URL. One that no webhook can have is a failed call.
    fn hook(&mut self, alloc: Global, url: &str) -> Result<Self::H, PlantFail>
        ensures called { Called (tells self.old) (calls.Hook url.now ∷ []) (tells self.new) }
        ensures cause { HasCause (tells self.old).faults result (tells self.new).faults }
        ensures at { IfPort result (λ fault. fault.port ≡ ports.Hook) }
        ensures fresh { IfOk result (λ hook. IsNewSink (hook_opens opens url.now) (Self.H.tells hook)) };
}

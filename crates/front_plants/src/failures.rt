ghost use Rattle.std.specs.Prelude.{◌≡◌};
ghost use Rattle.front_ports.specs.Scripts.{next_count, next_is_listed};
ghost use Rattle.front_plants.specs.Plants.{Failed, no_faults};
ghost use Rattle.front_plants.specs.declared.call.PlantFail.TheVariants.{Port};
ghost use Rattle.front_plants.specs.declared.failures.TheConstants.{LISTED_ERRNO};

use crate::call::{PlantFail, PlantFault, PlantPort};

/// The reason of each call of a plant in memory that fails: an input or output error, EIO of Linux.
pub const LISTED_ERRNO: i32 = 5;

// Which calls of a plant fail, how many there were, how many failed, and which was the last of these.
#[derive(Drop)]
pub(crate) struct Failures {
    fails: Vec<u64>,
    calls: u64,
    faults: u64,
    last: Option<PlantFault>,
}

impl Failures {
    ghost use Rattle.front_plants.specs.MemoryPlant.{listed_fails, counted_calls, counted_faults};

    pub(crate) fn new(fails: Vec<u64>) -> Failures
        ensures fails { listed_fails result ≡ fails.items }
        ensures fresh { (counted_calls result ≡ 0) × (counted_faults result ≡ no_faults) }
    {
        Failures {
            fails,
            calls: 0,
            faults: 0,
            last: None,
        }
    }

    // Counts a call, and says whether it is one that fails.
    pub(crate) fn count_call(&mut self) -> bool
        ensures listed { result ≡ next_is_listed (listed_fails self.old) (counted_calls self.old) }
        ensures fails { listed_fails self.new ≡ listed_fails self.old }
        ensures calls { counted_calls self.new ≡ next_count (counted_calls self.old) }
        ensures faults { counted_faults self.new ≡ counted_faults self.old }
    {
        self.calls = self.calls.saturating_add(1);
        self.fails.contains(&self.calls)
    }

    // Counts a call that failed for this port.
    pub(crate) fn fault(&mut self, port: PlantPort) -> PlantFail
        ensures port { result ≡ Port (record { port = port; errno = LISTED_ERRNO }) }
        ensures fails { listed_fails self.new ≡ listed_fails self.old }
        ensures calls { counted_calls self.new ≡ counted_calls self.old }
        ensures faults { Failed (counted_faults self.old) (record { port = port; errno = LISTED_ERRNO }) (counted_faults self.new) }
    {
        let fault = PlantFault {
            port,
            errno: LISTED_ERRNO,
        };
        self.faults = self.faults.saturating_add(1);
        self.last = Some(fault);
        PlantFail::Port(fault)
    }
}

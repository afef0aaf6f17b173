ghost use Rattle.std.specs.Prelude.{◌≡◌};

use front_base::{Address, NoMemory as OutOfMemory, Text};

/// A call of a plant with its arguments, and with the answers of `boot` and `allot`.
#[derive(Debug, Drop)]
pub enum PlantCall {
    /// The word that was answered.
    Boot(u64),
    /// The bay, and the allotment that was answered.
    Allot(u16, u64),
    /// Where to listen, the bay, and how many connections the door may give.
    Door(Address, u16, u64),
    /// The bay.
    Dial(u16),
    Clock,
    Diary,
    /// The path of the log.
    Log(Text),
    /// The URL of the webhook.
    Hook(Text),
}

/// Which handle could not be made.
#[derive(Clone, Copy, Debug, PartialEq, Eq)]
pub enum PlantPort {
    Door,
    Dial,
    Log,
    Hook,
}

/// A call of a plant that failed for its port.
#[derive(Clone, Copy, Debug, PartialEq, Eq)]
pub struct PlantFault {
    pub port: PlantPort,
    /// The system's number of the error, as `errno` has it.
    pub errno: i32,
}

/// Why a plant made no handle.
#[derive(Clone, Copy, Debug, PartialEq, Eq)]
pub enum PlantFail {
    /// A call on the outside failed. The plant counts it.
    Port(PlantFault),
    NoMemory,
}

impl From<OutOfMemory> for PlantFail {
    ghost use Rattle.front_plants.specs.declared.call.PlantFail.TheVariants.{NoMemory};

    ghost from_gives = { λ _ fail. fail ≡ NoMemory };

    fn from(_: OutOfMemory) -> PlantFail {
        PlantFail::NoMemory
    }
}

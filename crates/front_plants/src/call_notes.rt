ghost use Rattle.std.specs.Prelude.{◌≡◌, ◌≤◌, [], ◌∷◌, Some, IfOk, option_map, vec_capacity};
ghost use Rattle.truncate_backend.specs.Told.{Joined};
ghost use Rattle.front_plants.specs.Noted.{LosesPast};
ghost use Rattle.front_plants.specs.declared.call_notes.TheConstants.{MOST_NOTED_CALLS};

use crate::call::PlantCall;
use front_base::NoMemory;
use std::alloc::Global;

/// How many calls a plant in memory can note. After more of them it tells none.
pub const MOST_NOTED_CALLS: usize = 1024;

// The calls of a plant, in room that was reserved when it was made.
#[derive(Drop)]
pub(crate) struct CallNotes {
    calls: Vec<PlantCall>,
    lost: bool,
    ghost reserved: { MOST_NOTED_CALLS ≤ vec_capacity calls },
}

impl CallNotes {
    ghost use Rattle.front_plants.specs.MemoryPlant.{noted_calls};
    ghost use Rattle.std.specs.Prelude.{None};

    pub(crate) fn new(alloc: Global) -> Result<CallNotes, NoMemory>
        ensures { IfOk result (λ notes. noted_calls notes ≡ Some []) }
    {
        Ok(CallNotes {
            calls: Vec::with_capacity(alloc, MOST_NOTED_CALLS)?,
            lost: false,
        })
    }

    pub(crate) fn note(&mut self, call: PlantCall)
        ensures joined { Joined (noted_calls self.old) (call ∷ []) (noted_calls self.new) }
        ensures told { LosesPast (noted_calls self.old) (noted_calls self.new) }
    {
        if self.calls.len() < MOST_NOTED_CALLS {
            self.calls.push_reserved(call);
        } else {
            self.lost = true;
        }
    }

    // Those that were noted, where they are told.
    pub(crate) fn calls(&self) -> Option<&[PlantCall]>
        ensures { option_map (λ calls. calls.now) result ≡ noted_calls self.now }
    {
        if self.lost {
            None
        } else {
            Some(self.calls.as_slice())
        }
    }

    // A call could not be noted.
    pub(crate) fn lose(&mut self)
        ensures { noted_calls self.new ≡ None }
    {
        self.lost = true;
    }
}

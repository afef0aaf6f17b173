// The parts of a plant in memory that were not handed out yet.
ghost use Rattle.std.specs.Prelude.{◌≡◌, ◌≢◌, [], ◌∷◌, ℕ, IfOk, IfSome, IfNone, slice_get};
ghost use Rattle.std.specs.List.{All};
ghost use Rattle.front_plants.specs.Unused.{IsUnusedDoor, IsUnusedDial, IsUnusedSink};

use front_base::NoMemory;
use front_ports::{MemBytes, MemDial, MemDoor};
use std::alloc::Global;
use std::collections::VecDeque;

#[derive(Drop)]
struct UnusedDoor {
    door: MemDoor,
    ghost unused: { IsUnusedDoor door },
}

fn unused_door(door: MemDoor) -> UnusedDoor
    requires { IsUnusedDoor door }
    ensures { result.door ≡ door }
{
    UnusedDoor { door }
}

#[derive(Drop)]
struct UnusedDial {
    dial: MemDial,
    ghost unused: { IsUnusedDial dial },
}

fn unused_dial(dial: MemDial) -> UnusedDial
    requires { IsUnusedDial dial }
    ensures { result.dial ≡ dial }
{
    UnusedDial { dial }
}

#[derive(Drop)]
struct UnusedSink {
    sink: MemBytes,
    ghost unused: { IsUnusedSink sink },
}

fn unused_sink(sink: MemBytes) -> UnusedSink
    requires { IsUnusedSink sink }
    ensures { result.sink ≡ sink }
{
    UnusedSink { sink }
}

// The door of each bay, and none where it was handed out.
#[derive(Drop)]
pub(crate) struct UnusedDoors {
    doors: Vec<Option<UnusedDoor>>,
}

impl UnusedDoors {
    ghost use Rattle.std.specs.Prelude.{None};
    ghost use Rattle.front_plants.specs.MemoryPlant.{door_at};

    pub(crate) fn new(alloc: Global, doors: Vec<MemDoor>) -> Result<UnusedDoors, NoMemory>
        requires { All IsUnusedDoor doors.items }
        ensures { IfOk result (λ unused. (bay : ℕ) → door_at unused bay ≡ slice_get doors.items bay) }
    {
        let mut unused = Vec::with_capacity(alloc, doors.len())?;
        for door in doors {
            unused.push(Some(unused_door(door)))?;
        }
        Ok(UnusedDoors { doors: unused })
    }

    // The door of this bay.
    pub(crate) fn take(&mut self, bay: u16) -> Option<MemDoor>
        ensures door { result ≡ door_at self.old bay }
        ensures unused { IfSome result IsUnusedDoor }
        ensures gone { door_at self.new bay ≡ None }
        ensures others { (other : ℕ) → other ≢ bay → door_at self.new other ≡ door_at self.old other }
    {
        let at = bay as usize;
        if at < self.doors.len() {
            match self.doors[at].take() {
                Some(unused) => Some(unused.door),
                None => None,
            }
        } else {
            None
        }
    }
}

// Dials in the order in which they are handed out.
#[derive(Drop)]
pub(crate) struct UnusedDials {
    dials: VecDeque<UnusedDial>,
}

impl UnusedDials {
    ghost use Rattle.front_plants.specs.MemoryPlant.{dials_left};

    pub(crate) fn new(alloc: Global, dials: Vec<MemDial>) -> Result<UnusedDials, NoMemory>
        requires { All IsUnusedDial dials.items }
        ensures { IfOk result (λ unused. dials_left unused ≡ dials.items) }
    {
        let mut unused = VecDeque::new(alloc);
        for dial in dials {
            unused.push_back(unused_dial(dial))?;
        }
        Ok(UnusedDials { dials: unused })
    }

    pub(crate) fn next(&mut self) -> Option<MemDial>
        ensures unused { IfSome result IsUnusedDial }
        ensures first { IfSome result (λ dial. dials_left self.old ≡ dial ∷ dials_left self.new) }
        ensures none { IfNone result ((dials_left self.old ≡ []) × (dials_left self.new ≡ [])) }
    {
        match self.dials.pop_front() {
            Some(unused) => Some(unused.dial),
            None => None,
        }
    }
}

// What the logs write to, in the order in which it is handed out.
#[derive(Drop)]
pub(crate) struct UnusedSinks {
    sinks: VecDeque<UnusedSink>,
}

impl UnusedSinks {
    ghost use Rattle.front_plants.specs.MemoryPlant.{sinks_left};

    pub(crate) fn new(alloc: Global, sinks: Vec<MemBytes>) -> Result<UnusedSinks, NoMemory>
        requires { All IsUnusedSink sinks.items }
        ensures { IfOk result (λ unused. sinks_left unused ≡ sinks.items) }
    {
        let mut unused = VecDeque::new(alloc);
        for sink in sinks {
            unused.push_back(unused_sink(sink))?;
        }
        Ok(UnusedSinks { sinks: unused })
    }

    pub(crate) fn next(&mut self) -> Option<MemBytes>
        ensures unused { IfSome result IsUnusedSink }
        ensures first { IfSome result (λ sink. sinks_left self.old ≡ sink ∷ sinks_left self.new) }
        ensures none { IfNone result ((sinks_left self.old ≡ []) × (sinks_left self.new ≡ [])) }
    {
        match self.sinks.pop_front() {
            Some(unused) => Some(unused.sink),
            None => None,
        }
    }
}

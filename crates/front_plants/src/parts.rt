ghost use Rattle.std.specs.Prelude.{◌≡◌, [], IfOk};

use front_base::{Moment, NoMemory};
use front_ports::{MemBytes, MemDial, MemDoor};
use std::alloc::Global;
use truncate_backend::MemNotes;

/// For how many tries, how many lines of all of them, and how many bytes of these there is room in the notes of a sink.
#[derive(Clone, Copy, Debug, PartialEq, Eq)]
pub struct NotesRoom {
    pub notes: u64,
    pub lines: u64,
    pub bytes: u64,
}

impl NotesRoom {
    ghost use Rattle.truncate_backend.specs.MemoryNotes.{noted_room, noted_tries};
    ghost use Rattle.front_plants.specs.Rooms.{notes_room};

    // No notes yet, with this room.
    pub(crate) fn notes(self, alloc: Global) -> Result<MemNotes, NoMemory>
        ensures empty { IfOk result (λ notes. noted_tries notes ≡ []) }
        ensures room { IfOk result (λ notes. noted_room notes ≡ notes_room self) }
    {
        MemNotes::new(alloc, self.notes, self.lines, self.bytes)
    }
}

/// What a plant in memory makes its handles of. None of these was used before.
#[derive(Drop)]
pub struct MemParts {
    /// The answer of `boot`.
    pub boot: u64,
    /// The allotment of each bay, where more than `MOST_ALLOTTED` counts as that. A bay past the list has 0.
    pub allots: Vec<u64>,
    /// The door of each bay.
    pub doors: Vec<MemDoor>,
    /// Those that `dial` hands out, in order.
    pub dials: Vec<MemDial>,
    /// What the logs write to, in order.
    pub logs: Vec<MemBytes>,
    /// What the webhooks dial with, in order.
    pub hooks: Vec<MemDial>,
    /// The first moment of each clock.
    pub start: Moment,
    /// The microseconds from each moment of a clock to its next one.
    pub step: u64,
    /// The room of the notes of each log and each webhook.
    pub room: NotesRoom,
    /// The numbers of the calls of `door`, `dial`, `log` and `hook` that fail, all of these counted together from 1.
    pub fails: Vec<u64>,
}

ghost use Rattle.std.specs.Prelude.{◌≡◌, ◌<◌, ◌≤◌, ◌+◌, List, [], ◌∷◌, ℕ, Option, IfOk, OnErr};
ghost use Rattle.front_ports.specs.Cause.{HasCause, Rose};
ghost use Rattle.front_ports.specs.Dials.{NotesCall, NotesSent, failed_call};
ghost use Rattle.front_ports.specs.Told.{Grows};
ghost use Rattle.front_ports.specs.declared.dial.Call.{Call};

use crate::stream::{Link, PortFault};
use front_base::{Address, Bytes};

/// A call of a dial.
#[derive(Debug, Drop)]
pub struct Call {
    pub to: Address,
    /// The bytes that were sent. They are noted when the link is handed back.
    pub sent: Bytes,
    /// All bytes that the link had to give, none where the dial failed.
    pub held: Bytes,
}

/// Opens links to backends.
pub trait Dial {
    type K: Link;

    /// Its calls in order, those that failed too, where it tells them.
    ghost calls: { Self → Option (List Call) };

    /// How often a dial failed. It never falls.
    ghost faults: { Self → ℕ };

    /// How many links were handed back on which a read or a write had failed. It never falls.
    ghost link_faults: { Self → ℕ };

    /// Opens one link to that address, for a request that is long-running or not: only the body of a reply to one that is may
    /// be silent for long. After a failed dial the calls may be told no longer.
    fn dial(&mut self, to: Address, long_running: bool) -> Result<Self::K, PortFault>
        ensures cause { HasCause (faults self.old) (faults self.new) result }
        ensures fresh { IfOk result (λ link. (Self.K.read_faults link ≡ 0) × (Self.K.write_faults link ≡ 0)) }
        ensures noted { IfOk result (λ link.
            NotesCall (calls self.old) (calls self.new) to (Self.K.number link) (Self.K.left link) (Self.K.written link)) }
        ensures failed { OnErr result (Grows (calls self.old) (calls self.new) (failed_call to ∷ [])) }
        ensures link_faults { link_faults self.new ≡ link_faults self.old };

    /// Hands a link back that this dial gave. Closing it may fail, and nobody is told.
    fn done(&mut self, link: Self::K)
        ensures noted { NotesSent (calls self.old) (calls self.new) (Self.K.number link) (Self.K.written link) }
        ensures later { link_faults self.old ≤ link_faults self.new }
        ensures faulty { 0 < Self.K.read_faults link + Self.K.write_faults link
            → Rose (link_faults self.old) (link_faults self.new) }
        ensures sound { Self.K.read_faults link + Self.K.write_faults link ≡ 0
            → link_faults self.new ≡ link_faults self.old }
        ensures faults { faults self.new ≡ faults self.old };
}

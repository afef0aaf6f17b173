ghost use Rattle.std.specs.Prelude.{◌≡◌, ◌≤◌, List, ℕ, Option, IfOk, OnErr, MatchOption};
ghost use Rattle.front_ports.specs.Cause.{HasCause};
ghost use Rattle.front_ports.specs.Doors.{GivesFirst, CountsEnd, NotesVisit, NotesOutput};
ghost use Rattle.front_ports.specs.declared.door.Visit.{Visit};

use crate::stream::{Conn, PortFault};
use front_base::Bytes;

/// A connection that a door gave.
#[derive(Debug, Drop)]
pub struct Visit {
    /// The IPv4 address of the peer.
    pub peer: [u8; 4],
    /// All bytes that the connection had to give.
    pub input: Bytes,
    /// The bytes that were written to it: those up to when it was given, and all of them once it was handed back.
    pub output: Bytes,
}

/// Where connections come from, one after another.
pub trait Door {
    type C: Conn;

    /// The connections that it will still give, in order, where it tells them.
    ghost left: { Self → Option (List Self.C) };

    /// The connections that it gave, in order, where it tells them.
    ghost given: { Self → Option (List Visit) };

    /// How often it answered that no connection comes any more. It never falls.
    ghost closes: { Self → ℕ };

    /// How often it failed to give a connection. It never falls.
    ghost faults: { Self → ℕ };

    /// The next connection, or `None` once no other comes.
    fn next(&mut self) -> Result<Option<Self::C>, PortFault>
        ensures cause { HasCause (faults self.old) (faults self.new) result }
        ensures first { IfOk result (GivesFirst (left self.old) (left self.new)) }
        ensures left { OnErr result (left self.new ≡ left self.old) }
        ensures later { closes self.old ≤ closes self.new }
        ensures end { IfOk result (CountsEnd (closes self.old) (closes self.new)) }
        ensures no_end { OnErr result (closes self.new ≡ closes self.old) }
        ensures noted { IfOk result (λ answer. MatchOption answer (given self.new ≡ given self.old) (λ conn.
            NotesVisit (given self.old) (given self.new) (Self.C.from conn) (Self.C.left conn) (Self.C.written conn))) }
        ensures not_noted { OnErr result (given self.new ≡ given self.old) };

    /// Hands the connection back that was given last. Closing it may fail, and nobody is told.
    fn done(&mut self, conn: Self::C)
        ensures noted { NotesOutput (given self.old) (given self.new) (Self.C.written conn) }
        ensures left { left self.new ≡ left self.old }
        ensures closes { closes self.new ≡ closes self.old }
        ensures faults { faults self.new ≡ faults self.old };
}

ghost use Rattle.std.specs.Prelude.{◌≡◌, ◌≤◌, ◌+◌, [], IfOk, vec_len, vec_capacity};
ghost use Rattle.std.specs.VecDeque.{deque_len};
ghost use Rattle.front_ports.specs.Memory.{conn_from, duplex_left, duplex_written};

use crate::door::{Door, Visit};
use crate::mem_conn::MemConn;
use crate::stream::{Conn, PortFault};
use front_base::{Bytes, NoMemory};
use std::alloc::Global;
use std::collections::VecDeque;

// A connection that will come, with the entry that notes it.
#[derive(Debug, Drop)]
struct Expected {
    conn: MemConn,
    visit: Visit,
    ghost peer: { visit.peer ≡ conn_from conn },
    ghost input: { visit.input ≡ duplex_left conn },
    ghost output: { visit.output ≡ duplex_written conn },
}

/// A door in memory, which gives connections in their order, and tells those to come and those that it gave. It notes
/// them in room that was reserved when it was made.
#[derive(Debug, Drop)]
pub struct MemDoor {
    expected: VecDeque<Expected>,
    given: Vec<Visit>,
    fails: Vec<u64>,
    calls: u64,
    closes: u64,
    faults: u64,
    ghost room: { vec_len given + deque_len expected ≤ vec_capacity given },
}

fn expect(alloc: Global, conn: MemConn) -> Result<Expected, NoMemory>
    ensures { IfOk result (λ expected. expected.conn ≡ conn) }
{
    let visit = Visit {
        peer: conn.peer(),
        input: Bytes::new(conn.left().to_vec(alloc)?),
        output: Bytes::new(conn.output().to_vec(alloc)?),
    };
    Ok(Expected { conn, visit })
}

impl MemDoor {
    ghost use Rattle.front_ports.specs.MemoryDoor.{door_left, door_given, door_closes, door_faults};
    ghost use Rattle.front_ports.specs.MemoryDoor.{door_fails, door_calls};

    /// A door that gives these connections. The calls of `next` of these numbers fail, counted from 1; a call that fails
    /// takes no connection.
    pub fn new(alloc: Global, conns: Vec<MemConn>, fails: Vec<u64>) -> Result<MemDoor, NoMemory>
        ensures left { IfOk result (λ door. door_left door ≡ conns.items) }
        ensures given { IfOk result (λ door. door_given door ≡ []) }
        ensures fresh { IfOk result (λ door. (door_closes door ≡ 0) × (door_faults door ≡ 0)) }
        ensures fails { IfOk result (λ door. (door_fails door ≡ fails.items) × (door_calls door ≡ 0)) }
    {
        let given = Vec::with_capacity(alloc, conns.len())?;
        let mut expected = VecDeque::new(alloc);
        for conn in conns {
            expected.push_back(expect(alloc, conn)?)?;
        }
        Ok(MemDoor {
            expected,
            given,
            fails,
            calls: 0,
            closes: 0,
            faults: 0,
        })
    }

    /// The connections that it gave. What was written to one is noted when it is handed back.
    pub fn given(&self) -> &[Visit]
        ensures { result.now ≡ door_given self.now }
    {
        self.given.as_slice()
    }
}

impl Door for MemDoor {
    ghost use Rattle.std.specs.Prelude.{Some, OnOk, OnErr, MatchOption, IsTrue, IsFalse};
    ghost use Rattle.front_ports.specs.Cause.{HasCause};
    ghost use Rattle.front_ports.specs.Doors.{GivesFirst, CountsEnd, NotesVisit, NotesOutput};
    ghost use Rattle.front_ports.specs.MemoryDoor.{door_left, door_given, door_closes, door_faults};
    ghost use Rattle.front_ports.specs.MemoryDoor.{door_fails, door_calls, door_will_fail};
    ghost use Rattle.front_ports.specs.Scripts.{next_count};

    type C = MemConn;

    ghost left = { λ door. Some (door_left door) };

    ghost given = { λ door. Some (door_given door) };

    ghost closes = { door_closes };

    ghost faults = { door_faults };

    fn next(&mut self) -> Result<Option<MemConn>, PortFault>
        ensures cause { HasCause (door_faults self.old) (door_faults self.new) result }
        ensures first { IfOk result (GivesFirst (Some (door_left self.old)) (Some (door_left self.new))) }
        ensures left { OnErr result (door_left self.new ≡ door_left self.old) }
        ensures later { door_closes self.old ≤ door_closes self.new }
        ensures end { IfOk result (CountsEnd (door_closes self.old) (door_closes self.new)) }
        ensures no_end { OnErr result (door_closes self.new ≡ door_closes self.old) }
        ensures noted { IfOk result (λ answer. MatchOption answer (door_given self.new ≡ door_given self.old) (λ conn.
            NotesVisit (Some (door_given self.old)) (Some (door_given self.new)) (conn_from conn) (Some (duplex_left conn)) (Some (duplex_written conn)))) }
        ensures not_noted { OnErr result (door_given self.new ≡ door_given self.old) }

        // Which calls fail.
        ensures fails { OnErr result (IsTrue (door_will_fail self.old)) }
        ensures opens { OnOk result (IsFalse (door_will_fail self.old)) }
        ensures setting { door_fails self.new ≡ door_fails self.old }
        ensures counted { door_calls self.new ≡ next_count (door_calls self.old) }
    {
        self.calls = self.calls.saturating_add(1);
        if self.fails.contains(&self.calls) {
            self.faults = self.faults.saturating_add(1);
            return Err(PortFault);
        }
        match self.expected.pop_front() {
            Some(expected) => {
                self.given.push_reserved(expected.visit);
                Ok(Some(expected.conn))
            }
            None => {
                self.closes = self.closes.saturating_add(1);
                Ok(None)
            }
        }
    }

    fn done(&mut self, conn: MemConn)
        ensures noted { NotesOutput (Some (door_given self.old)) (Some (door_given self.new)) (Some (duplex_written conn)) }
        ensures left { door_left self.new ≡ door_left self.old }
        ensures closes { door_closes self.new ≡ door_closes self.old }
        ensures faults { door_faults self.new ≡ door_faults self.old }

        // Which calls fail stays as it is.
        ensures setting { door_fails self.new ≡ door_fails self.old }
        ensures uncounted { door_calls self.new ≡ door_calls self.old }
    {
        if let Some(visit) = self.given.pop() {
            self.given.push_reserved(Visit {
                output: Bytes::new(conn.into_output()),
                ..visit
            });
        }
    }
}

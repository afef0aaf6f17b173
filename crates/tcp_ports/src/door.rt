ghost use Rattle.std.specs.Prelude.{◌≡◌, ◌≤◌, ◌+◌, None, IfOk, OnErr, MatchOption, Ok};
ghost use Rattle.front_ports.specs.Cause.{HasCause};
ghost use Rattle.front_ports.specs.Doors.{CountsEnd, GivesFirst, NotesVisit};
ghost use Rattle.tcp_ports.specs.Counts.{conn_from, door_faults, door_closes, door_remaining, door_left, door_given, most_of};

use crate::accept::next_conn;
use crate::conn::TcpConn;
use crate::listener::SharedListener;
use crate::served_client::ServedClient;
use front_ports::{Door, PortFault};
use std::rt;

/// The door of one bay, through which it takes connections of the shared listener one at a time.
#[derive(Drop)]
pub struct TcpDoor<'b, R> {
    rt: &'b R,
    listener: &'b SharedListener,
    client: &'b ServedClient,
    // Whether it has begun to wait for connections.
    running: bool,
    // How many connections it may still give.
    remaining: u64,
    closes: u64,
    faults: u64,
}

impl<'b, R: rt::Clock> TcpDoor<'b, R> {
    /// A door that gives so many connections at most, where 0 stands for no end. It notes in `client` whom it serves.
    pub fn new(
        rt: &'b R,
        listener: &'b SharedListener,
        client: &'b ServedClient,
        connections: u64,
    ) -> TcpDoor<'b, R>
        ensures closes { door_closes result ≡ 0 }
        ensures faults { door_faults result ≡ 0 }
        ensures remaining { door_remaining result ≡ most_of connections }
    {
        TcpDoor {
            rt,
            listener,
            client,
            running: false,
            remaining: if connections == 0 {
                u64::MAX
            } else {
                connections
            },
            closes: 0,
            faults: 0,
        }
    }
}

impl<'b, R: rt::Clock> Door for TcpDoor<'b, R> {
    type C = TcpConn<'b, R>;

    ghost left = { door_left };

    ghost given = { door_given };

    ghost closes = { door_closes };

    ghost faults = { door_faults };

    fn next(&mut self) -> Result<Option<TcpConn<'b, R>>, PortFault>
        ensures cause { HasCause (door_faults self.old) (door_faults self.new) result }
        ensures first { IfOk result (GivesFirst (door_left self.old) (door_left self.new)) }
        ensures left { OnErr result (door_left self.new ≡ door_left self.old) }
        ensures later { door_closes self.old ≤ door_closes self.new }
        ensures end { IfOk result (CountsEnd (door_closes self.old) (door_closes self.new)) }
        ensures no_end { OnErr result (door_closes self.new ≡ door_closes self.old) }
        ensures noted { IfOk result (λ answer. MatchOption answer (door_given self.new ≡ door_given self.old) (λ conn.
            NotesVisit (door_given self.old) (door_given self.new) (conn_from conn) None None)) }
        ensures not_noted { OnErr result (door_given self.new ≡ door_given self.old) }

        // It gives no more connections than it may.
        ensures spent { door_remaining self.old ≡ 0 → result ≡ Ok None }
        ensures counted { IfOk result (λ answer. MatchOption answer (door_remaining self.new ≡ door_remaining self.old) (λ conn.
            door_remaining self.old ≡ door_remaining self.new + 1)) }
        ensures uncounted { OnErr result (door_remaining self.new ≡ door_remaining self.old) }
    {
        self.listener.mark_running(!self.running);
        self.running = true;
        let next = if self.remaining > 0 {
            next_conn(self.rt, self.listener)
        } else {
            Ok(None)
        };
        match next {
            Ok(Some(conn)) => {
                self.remaining -= 1;
                self.listener.counters().conn_was_given();
                self.client.set(conn.raw_fd());
                Ok(Some(conn))
            }
            Ok(None) => {
                self.listener.room_was_made();
                self.closes = self.closes.saturating_add(1);
                Ok(None)
            }
            Err(_) => {
                self.faults = self.faults.saturating_add(1);
                Err(PortFault)
            }
        }
    }

    fn done(&mut self, conn: TcpConn<'b, R>) {
        self.client.clear();
        let how = conn.end();
        self.listener.conn_has_ended(self.rt, how);
    }
}

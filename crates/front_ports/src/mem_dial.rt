ghost use Rattle.std.specs.Prelude.{◌≡◌, ◌≤◌, ◌<◌, ◌+◌, [], ◌∷◌, Some, IfOk, OnErr, drop, option_map, vec_len, vec_capacity};
ghost use Rattle.std.specs.List.{All};
ghost use Rattle.std.specs.VecDeque.{deque_len};
ghost use Rattle.front_ports.specs.Cause.{HasCause};
ghost use Rattle.front_ports.specs.Memory.{duplex_left, duplex_written, link_number, IsUnused};
ghost use Rattle.front_ports.specs.Dials as spec;
ghost use Rattle.front_ports.specs.Memory.{duplex_read_faults, duplex_write_faults};

use crate::dial::{Call, Dial};
use crate::mem_link::MemLink;
use crate::stream::PortFault;
use front_base::{Address, Bytes, NoMemory};
use std::alloc::Global;
use std::collections::VecDeque;

// A link that no dial has had, with the entry that will note its call.
#[derive(Debug, Drop)]
struct Ready {
    link: MemLink,
    call: Call,
    ghost unused: { IsUnused link },
    ghost unsent: { call.sent ≡ [] },
    ghost held: { call.held ≡ duplex_left link },
}

/// A dial in memory, which gives links in their order, and tells its calls. It notes them in room that was reserved when
/// it was made.
#[derive(Debug, Drop)]
pub struct MemDial {
    ready: VecDeque<Ready>,
    calls: Vec<Call>,
    past: bool,
    fails: Vec<u64>,
    dials: u64,
    faults: u64,
    link_faults: u64,
    ghost room: { vec_len calls + deque_len ready ≤ vec_capacity calls },
}

fn make_ready(alloc: Global, link: MemLink) -> Result<Ready, NoMemory>
    requires { IsUnused link }
    ensures { IfOk result (λ ready. ready.link ≡ link) }
{
    let call = Call {
        to: Address {
            ip: [0; 4],
            port: 0,
        },
        sent: Bytes::new(Vec::new(alloc)),
        held: Bytes::new(link.left().to_vec(alloc)?),
    };
    Ok(Ready { link, call })
}

impl MemDial {
    ghost use Rattle.front_ports.specs.MemoryDial.{links_held, dial_links, dial_calls, dial_faults, dial_link_faults};
    ghost use Rattle.front_ports.specs.MemoryDial.{links_streams, dial_streams, dial_fails, dial_dials};

    /// A dial whose k-th call has the k-th link. The calls of these numbers fail, counted from 1, and so does each past
    /// the last link, from which on the calls are told no longer.
    pub fn new(alloc: Global, links: Vec<MemLink>, fails: Vec<u64>) -> Result<MemDial, NoMemory>
        requires { All IsUnused links.items }
        ensures links { IfOk result (λ dial. dial_links dial ≡ links_held links.items) }
        ensures calls { IfOk result (λ dial. dial_calls dial ≡ Some []) }
        ensures fresh { IfOk result (λ dial. (dial_faults dial ≡ 0) × (dial_link_faults dial ≡ 0)) }
        ensures streams { IfOk result (λ dial. dial_streams dial ≡ links_streams links.items) }
        ensures fails { IfOk result (λ dial. (dial_fails dial ≡ fails.items) × (dial_dials dial ≡ 0)) }
    {
        let calls = Vec::with_capacity(alloc, links.len())?;
        let mut ready = VecDeque::new(alloc);
        for link in links {
            ready.push_back(make_ready(alloc, link)?)?;
        }
        Ok(MemDial {
            ready,
            calls,
            past: false,
            fails,
            dials: 0,
            faults: 0,
            link_faults: 0,
        })
    }

    /// Its calls, where they are told. What was sent to a link is noted when it is handed back.
    pub fn calls(&self) -> Option<&[Call]>
        ensures { option_map (λ calls. calls.now) result ≡ dial_calls self.now }
    {
        if self.past {
            None
        } else {
            Some(self.calls.as_slice())
        }
    }
}

// The entry of a dial that failed.
fn failed_call(to: Address, call: Call) -> Call
    requires { call.sent ≡ [] }
    ensures { result ≡ spec.failed_call to }
{
    let mut held = call.held.into_vec();
    held.clear();
    Call {
        to,
        sent: call.sent,
        held: Bytes::new(held),
    }
}

impl Dial for MemDial {
    ghost use Rattle.std.specs.Prelude.{IsTrue, IsFalse, OnOk};
    ghost use Rattle.front_ports.specs.Cause.{Rose};
    ghost use Rattle.front_ports.specs.Dials.{NotesCall, NotesSent};
    ghost use Rattle.front_ports.specs.MemoryDial.{dial_links, dial_calls, dial_faults, dial_link_faults, LosesPast};
    ghost use Rattle.front_ports.specs.MemoryDial.{dial_streams, dial_fails, dial_dials, dial_will_fail};
    ghost use Rattle.front_ports.specs.MemoryStream.{duplex_stream};
    ghost use Rattle.front_ports.specs.Scripts.{next_count};
    ghost use Rattle.front_ports.specs.Told.{Grows};

    type K = MemLink;

    ghost calls = { dial_calls };

    ghost faults = { dial_faults };

    ghost link_faults = { dial_link_faults };

    fn dial(&mut self, to: Address, _long_running: bool) -> Result<MemLink, PortFault>
        ensures cause { HasCause (dial_faults self.old) (dial_faults self.new) result }
        ensures fresh { IfOk result (λ link. (duplex_read_faults link ≡ 0) × (duplex_write_faults link ≡ 0)) }
        ensures noted { IfOk result (λ link.
            NotesCall (dial_calls self.old) (dial_calls self.new) to (link_number link) (Some (duplex_left link)) (Some (duplex_written link))) }
        ensures failed { OnErr result (Grows (dial_calls self.old) (dial_calls self.new) (spec.failed_call to ∷ [])) }
        ensures link_faults { dial_link_faults self.new ≡ dial_link_faults self.old }

        // Which link it is, and that calls are told until the last one is gone.
        ensures first { IfOk result (λ link. dial_links self.old ≡ duplex_left link ∷ dial_links self.new) }
        ensures links { dial_links self.new ≡ drop 1 (dial_links self.old) }
        ensures told { LosesPast (dial_calls self.old) (dial_calls self.new) (dial_links self.old) }

        // The link does what it was told when it was made.
        ensures same { IfOk result (λ link. dial_streams self.old ≡ duplex_stream link ∷ dial_streams self.new) }
        ensures streams { dial_streams self.new ≡ drop 1 (dial_streams self.old) }

        // Which dials fail.
        ensures fails { OnErr result (IsTrue (dial_will_fail self.old)) }
        ensures opens { OnOk result (IsFalse (dial_will_fail self.old)) }
        ensures setting { dial_fails self.new ≡ dial_fails self.old }
        ensures counted { dial_dials self.new ≡ next_count (dial_dials self.old) }
    {
        self.dials = self.dials.saturating_add(1);
        match self.ready.pop_front() {
            Some(ready) if !self.fails.contains(&self.dials) => {
                let link = ready.link.numbered(self.calls.len());
                self.calls.push_reserved(Call { to, ..ready.call });
                Ok(link)
            }
            Some(ready) => {
                self.calls.push_reserved(failed_call(to, ready.call));
                self.faults = self.faults.saturating_add(1);
                Err(PortFault)
            }
            None => {
                self.past = true;
                self.faults = self.faults.saturating_add(1);
                Err(PortFault)
            }
        }
    }

    fn done(&mut self, link: MemLink)
        ensures noted { NotesSent (dial_calls self.old) (dial_calls self.new) (link_number link) (Some (duplex_written link)) }
        ensures later { dial_link_faults self.old ≤ dial_link_faults self.new }
        ensures faulty { 0 < duplex_read_faults link + duplex_write_faults link
            → Rose (dial_link_faults self.old) (dial_link_faults self.new) }
        ensures sound { duplex_read_faults link + duplex_write_faults link ≡ 0
            → dial_link_faults self.new ≡ dial_link_faults self.old }
        ensures faults { dial_faults self.new ≡ dial_faults self.old }

        // The links to come stay, and so does which dials fail.
        ensures links { dial_links self.new ≡ dial_links self.old }
        ensures streams { dial_streams self.new ≡ dial_streams self.old }
        ensures setting { dial_fails self.new ≡ dial_fails self.old }
        ensures uncounted { dial_dials self.new ≡ dial_dials self.old }
    {
        if link.is_faulty() {
            self.link_faults = self.link_faults.saturating_add(1);
        }
        let number = link.number();
        if number < self.calls.len() {
            self.calls[number].sent = Bytes::new(link.into_output());
        }
    }
}

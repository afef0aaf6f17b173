// What a link answers to a post.
ghost use Rattle.std.specs.Prelude.{◌≡◌, ◌<◌, ◌≤◌, ◌+◌, [], IfOk, OnErr, OnOk, length, drop, vec_capacity};
ghost use Rattle.front_ports.specs.Cause.{HasCause};
ghost use Rattle.http_head.specs.declared.block.TheConstants.{MOST_HEAD_BYTES};
ghost use Rattle.http_head.specs.Reply.{IsStatusAnswer};
ghost use Rattle.webhook_sink.specs.Replies as spec;

use front_base::NoMemory;
use front_ports::{PortFault, Source};
use http_head::{
    BlockAnswer, MOST_HEAD_BYTES, Search, StatusAnswer, blocks_are_bounded, blocks_stay,
    find_block, read_status, searches_go_on,
};
use std::alloc::Global;

/// The most interim heads that may come before a final one.
pub const MOST_INTERIM: usize = 8;

// The most bytes of one read.
const MOST_READ_BYTES: usize = 4096;

/// What the bytes of a link say.
#[derive(Clone, Copy, Debug, PartialEq, Eq)]
pub enum Reply {
    /// A final head of this status, after at most `MOST_INTERIM` interim ones.
    Final(u16),
    /// A head that isn't HTTP or is too large, one interim head too many, or no final head before the end.
    Bad,
}

// The status of an interim head: 100 to 199 without 101, after which no other head comes (RFC 9110, section 15.2).
fn is_interim(status: u16) -> bool
    ensures { result ≡ spec.is_interim status }
{
    100 <= status && status < 200 && status != 101
}

// What a head decides, or none where another one follows.
fn decided(answer: StatusAnswer) -> Option<Reply>
    ensures { result ≡ spec.decided answer }
{
    match answer {
        StatusAnswer::Whole { status, .. } => {
            if is_interim(status) {
                None
            } else {
                Some(Reply::Final(status))
            }
        }
        StatusAnswer::More | StatusAnswer::BadHead | StatusAnswer::TooLarge => Some(Reply::Bad),
    }
}

// The bytes that came from a link and weren't used yet.
#[derive(Drop)]
pub struct Intake {
    bytes: Vec<u8>,
    ghost reserved: { MOST_HEAD_BYTES ≤ vec_capacity bytes },
    ghost within: { length bytes.items ≤ MOST_HEAD_BYTES },
}

impl Intake {
    pub fn new(alloc: Global) -> Result<Intake, NoMemory> {
        Ok(Intake {
            bytes: Vec::with_capacity(alloc, MOST_HEAD_BYTES)?,
        })
    }

    // Uses the first bytes.
    fn skip(&mut self, count: usize)
        requires { count ≤ length self.old.bytes.items }
        ensures { self.new.bytes.items ≡ drop count self.old.bytes.items }
    {
        let rest = self.bytes.len() - count;
        if 0 < count {
            self.bytes.rotate_left(count);
        }
        self.bytes.truncate(rest);
    }

    // Reads once, and answers how many bytes came.
    fn refill<K: Source>(&mut self, link: &mut K) -> Result<usize, PortFault>
        requires { length self.old.bytes.items < MOST_HEAD_BYTES }
        ensures ok { IfOk result (spec.ReadOn (K.left link.old) (K.left link.new)
            self.old.bytes.items self.new.bytes.items) }
        ensures cause { HasCause (K.read_faults link.old) (K.read_faults link.new) result }
        ensures aside { K.outward link.new ≡ K.outward link.old }
    {
        let mut buf = [0u8; MOST_READ_BYTES];
        let room = MOST_READ_BYTES.min(MOST_HEAD_BYTES - self.bytes.len());
        match link.read(&mut buf[..room]) {
            Ok(count) => {
                match self.bytes.extend_from_slice(&buf[..count]) {
                    Ok(()) => {}
                    Err(_) => unreachable!(),
                }
                Ok(count)
            }
            Err(fault) => Err(fault),
        }
    }

    // Reads until the whole block of a head is held, or none will come.
    fn fill<K: Source>(&mut self, link: &mut K) -> Result<(), PortFault>
        ensures ok { OnOk result (spec.Filled (K.left link.old) (K.left link.new)
            self.old.bytes.items self.new.bytes.items) }
        ensures cause { HasCause (K.read_faults link.old) (K.read_faults link.new) result }
        ensures aside { K.outward link.new ≡ K.outward link.old }
    {
        searches_go_on();
        let mut search = Search::new();
        'reading: loop {
            match find_block(self.bytes.as_slice(), &mut search) {
                BlockAnswer::Whole(_) => return Ok(()),
                BlockAnswer::TooLarge => return Ok(()),
                BlockAnswer::More => {}
            }
            match self.refill(link) {
                Ok(0) => return Ok(()),
                Ok(_) => {}
                Err(fault) => return Err(fault),
            }
        }
    }

    // Uses the head that stands first, and answers its status.
    fn use_head(&mut self) -> StatusAnswer
        ensures is { IsStatusAnswer self.old.bytes.items result }
        ensures rest { self.new.bytes.items ≡ spec.after_head result self.old.bytes.items }
    {
        blocks_are_bounded();
        match read_status(self.bytes.as_slice()) {
            StatusAnswer::Whole { status, length } => {
                self.skip(length);
                StatusAnswer::Whole { status, length }
            }
            StatusAnswer::More => StatusAnswer::More,
            StatusAnswer::BadHead => StatusAnswer::BadHead,
            StatusAnswer::TooLarge => StatusAnswer::TooLarge,
        }
    }

    // The status of the next head.
    fn next_status<K: Source>(&mut self, link: &mut K) -> Result<StatusAnswer, PortFault>
        ensures ok { IfOk result (spec.GotStatus (K.left link.old) (K.left link.new)
            self.old.bytes.items self.new.bytes.items) }
        ensures cause { HasCause (K.read_faults link.old) (K.read_faults link.new) result }
        ensures aside { K.outward link.new ≡ K.outward link.old }
    {
        match self.fill(link) {
            Ok(()) => Ok(self.use_head()),
            Err(fault) => Err(fault),
        }
    }

    // Reads heads until a final one, after what was held for another link is gone.
    pub fn read_reply<K: Source>(&mut self, link: &mut K) -> Result<Reply, PortFault>
        ensures ok { IfOk result (spec.Came (K.left link.old) (K.left link.new)) }
        ensures cause { HasCause (K.read_faults link.old) (K.read_faults link.new) result }
        ensures aside { K.outward link.new ≡ K.outward link.old }
    {
        blocks_are_bounded();
        blocks_stay();
        self.bytes.clear();
        let mut more = MOST_INTERIM;
        'passing: loop {
            let answer = match self.next_status(link) {
                Ok(answer) => answer,
                Err(fault) => return Err(fault),
            };
            match decided(answer) {
                Some(reply) => return Ok(reply),
                None => {}
            }
            if more == 0 {
                return Ok(Reply::Bad);
            }
            more -= 1;
        }
    }
}

// Requests of one bay that have numbers next to each other.
ghost use Rattle.std.specs.Prelude.{◌≡◌, ◌<◌};
ghost use Rattle.audit_check.specs.Seen as spec;

use front_base::AuditId;

/// How many requests a block has.
pub const BLOCK_LEN: u64 = 64;

// One block of a bay, and so of one connection thread of one start of the program.
#[derive(Clone, Copy, Debug, PartialEq, Eq, PartialOrd, Ord)]
pub struct Block {
    pub boot: u64,
    pub bay: u16,
    // the requests from `BLOCK_LEN` times this one on
    pub index: u64,
}

pub fn block_of(id: AuditId) -> Block
    ensures { result ≡ spec.block_of id }
{
    Block {
        boot: id.boot,
        bay: id.bay,
        index: id.number / BLOCK_LEN,
    }
}

// Which of its block's requests it is.
pub fn place_of(id: AuditId) -> usize
    ensures value { result ≡ spec.place_of id }
    ensures within { result < 64 }
{
    (id.number % BLOCK_LEN) as usize
}

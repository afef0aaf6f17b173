ghost use Rattle.std.specs.Prelude.{◌≡◌, ◌<◌, ◌^◌, ◌++◌, IfOk, OnErr, OnOk};
ghost use Rattle.front_base.specs.AuditId as spec;

use crate::memory::NoMemory;
use crate::text::Text;
use std::alloc::Global;
use std::marker::Model;
use uuid::Uuid;

/// The ID of one request, the same in all its audit events. No two requests of a run have one ID.
#[derive(Clone, Copy, Debug, PartialEq, Eq, PartialOrd, Ord, Hash)]
pub struct AuditId {
    /// A word that is drawn when the program starts.
    pub boot: u64,
    /// The connection thread that serves the request.
    pub bay: u16,
    /// How many requests this bay served before. It is below `MOST_REQUESTS`.
    pub number: u64,
}

/// The most requests of one bay, which is how many numbers an audit ID has: 2^48.
pub const MOST_REQUESTS: u64 = 281_474_976_710_656;

impl Model for AuditId {
    ghost use Rattle.front_base.specs.AuditId as seen;
    ghost use Rattle.std.specs.Prelude.{◌<◌};
    ghost use Rattle.front_base.specs.declared.audit_id.TheConstants.{MOST_REQUESTS};

    ghost Value = { seen.AuditId };

    ghost view = { λ id. record { boot = id.boot; bay = id.bay; number = id.number } };

    ghost invariant = { λ id. id.number < MOST_REQUESTS };

    ghost inverse = { λ id. record { boot = id.boot; bay = id.bay; number = id.number } };
}

// The sixteen bytes of the UUID.
fn uuid_bytes(id: AuditId) -> [u8; 16]
    ensures { result ≡ spec.id_bytes id }
{
    let b = id.boot.to_be_bytes();
    let y = id.bay.to_be_bytes();
    let n = id.number.to_be_bytes();
    [
        b[0], b[1], b[2], b[3], b[4], b[5], b[6], b[7], y[0], y[1], n[2], n[3], n[4], n[5], n[6],
        n[7],
    ]
}

// The 36 characters, which stand in the buffer.
fn spelled<'b>(id: AuditId, buffer: &'b mut [u8; 45]) -> &'b str
    ensures { result.now ≡ spec.audit_id_text id }
{
    let uuid = Uuid::from_bytes(uuid_bytes(id));
    uuid.hyphenated().encode_lower(buffer)
}

/// Writes the 36 characters of an audit ID after what is there: a UUID in lower case (RFC 9562, section 4), of the boot
/// word, the bay and the number.
pub fn push_audit_id(out: &mut Vec<u8>, id: AuditId) -> Result<(), NoMemory>
    ensures ok { OnOk result (out.new.items ≡ out.old.items ++ spec.audit_id_text id) }
    ensures kept { OnErr result (out.new.items ≡ out.old.items) }
{
    let mut buffer = Uuid::encode_buffer();
    out.extend_from_slice(spelled(id, &mut buffer).as_bytes())?;
    Ok(())
}

/// The 36 characters of an audit ID, as a text of their own.
pub fn audit_id_text(alloc: Global, id: AuditId) -> Result<Text, NoMemory>
    ensures { IfOk result (λ text. text ≡ spec.audit_id_text id) }
{
    let mut buffer = Uuid::encode_buffer();
    Text::copy_of(alloc, spelled(id, &mut buffer))
}

// Audit IDs, which are spelled as UUIDs are (RFC 9562, section 4).
ghost use Rattle.std.specs.Prelude.{◌≡◌};
ghost use Rattle.stamp_text.specs.Ids as spec;
ghost use Rattle.uuid.specs.Text as uuid;

use front_base::AuditId;
use uuid::Uuid;

fn id_of_bytes(b: [u8; 16]) -> AuditId
    ensures { result ≡ spec.id_of_bytes b }
{
    AuditId {
        boot: u64::from_be_bytes([b[0], b[1], b[2], b[3], b[4], b[5], b[6], b[7]]),
        bay: u16::from_be_bytes([b[8], b[9]]),
        number: u64::from_be_bytes([0, 0, b[10], b[11], b[12], b[13], b[14], b[15]]),
    }
}

fn parsed(text: &str) -> Option<Uuid>
    ensures { result ≡ uuid.parsed text.now }
{
    match Uuid::parse_str(text) {
        Ok(id) => Some(id),
        Err(_) => None,
    }
}

/// The audit ID that a UUID spells: its bytes are the boot word, the bay and the number.
#[tactic(auto, unfolding(crate::specs::Ids::audit_id_of))]
pub fn audit_id_of(text: &str) -> Option<AuditId>
    ensures { result ≡ spec.audit_id_of text.now }
{
    match parsed(text) {
        Some(id) => Some(id_of_bytes(id.into_bytes())),
        None => None,
    }
}

//! Audit IDs and moments read back from their texts.
//!
//! The main contract is the law `stamps_read_back`: `audit_id_of` and `moment_of` give back every audit ID and every
//! moment whose text `front_base` writes.
//!
//! Nothing is promised of other texts: some of them are read too, as a UUID in capitals or a 31st of June.
#![tactic(auto)]

mod audit_id;
mod date;
mod laws;
mod moment;

pub use audit_id::audit_id_of;
pub use laws::stamps_read_back;
pub use moment::moment_of;

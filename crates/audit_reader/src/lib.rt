//! Lines of audit events read back: what `event_text` writes is read again, and nothing else is.
//!
//! The main contract is that of `read_event`: it gives the plain event whose line the text is, byte for byte, and
//! refuses a text as no event exactly where no plain event has that line, unless memory runs out. The law `reads_back`
//! says that every plain event is read from its line, and that no two have one line.
//!
//! Nothing is promised of JSON that spells an event in another way: other white space, another order of members or
//! another escape is refused. Whether an event agrees with a policy isn't asked here.
#![tactic(auto)]

mod compact_body;
mod event_line;
mod fits;
mod laws;
mod moment_text;
mod plain;

pub use event_line::read_event;
pub use event_members::EventFault;
pub use laws::reads_back;

//! The members of an audit event's line read back, one after another, each with the comma after it.
//!
//! The main contracts are those of the readers, each of which gives what its definition says of the bytes at the front,
//! and the law `members_read_back`: what `event_text` writes of a member is read again, whatever members stand after it.
//!
//! Nothing is promised of members that are spelled in another way: some of them are read too, as a text with a needless
//! escape. A caller that wants one spelling alone writes again what was read and compares.
#![tactic(auto)]

mod decimal;
mod fault;
mod json_string;
mod laws;
mod level_stage;
mod object_ref;
mod response_status;
mod source_ip;
mod text_members;
mod user;

pub use fault::EventFault;
pub use json_string::{after, after_if, string_of};
pub use laws::members_read_back;
pub use level_stage::{level_of, stage_of};
pub use object_ref::object_ref_of;
pub use response_status::code_if;
pub use source_ip::peer_of;
pub use text_members::{skip_comma, text_if, text_member};
pub use user::{impersonated_of, user_of};

//! Who asks: the users of a token file, and the one whose bearer token a request carries.
//!
//! The main contracts are those of `read_tokens`, which gives the records of a file exactly, or the first row that is
//! refused and why, and of `who`, which gives the user of the last record that has the request's token. Contracts see `Tokens`
//! as the list of its records; the code finds a token by one look-up in an ordered map. `act` says as whom a request asks to
//! act, and whether it may.
//!
//! Nothing is promised about how long a look-up takes: it compares the token with those of the file.
#![tactic(auto)]

mod acting;
mod asker;
mod bearer;
mod carried;
mod fault;
mod groups;
mod impersonation;
mod laws;
mod record;
mod rows;
mod tokens;
mod user;

pub use acting::Act;
pub use asker::Who;
pub use bearer::who;
pub use fault::{BadRecord, Field, TokenFault};
pub use impersonation::act;
pub use laws::{only_masters_act_as_others, users_are_carried, users_are_plain};
pub use record::Record;
pub use rows::read_tokens;
pub use tokens::Tokens;
pub use user::user_of;

//! The top call of the command `explain`, over any files, any source and any sink.
//!
//! The main contract is that of `run_desk`: how it ended and why, what it read, and what it wrote. That is the audit lines
//! that the requests of its input owe, one after another, under the tokens and the policy of the files that its words name,
//! and by the APIServices of a third one as the requests before left them and the endpoints of a fourth; or, where the
//! words ask for routes, the line of each request that says where it goes. It takes no leave to wait, and always returns.
//! What a request wants, is answered and owes is said in `audit_core`, and nothing of it here.
//!
//! Over files, a source and a sink in memory, which tell what they hold, this fixes each byte of the output. Standard
//! input and output tell nothing: of a run over them the contract says only that some bytes with these requests were read,
//! and nothing of what was written. It is one piece of code that serves both, and can't see which it has.
//!
//! Nothing is promised of what a real file or terminal holds, nor of time.
#![tactic(auto)]

mod desk;
mod lines;
mod pushing;
mod route_line;
mod served;
mod serving;
mod setup;

pub use desk::run_desk;

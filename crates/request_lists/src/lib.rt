//! Every input has a list of requests, and every stream an answer of the tables of heads (RFC 9112, sections 2 to 7).
//!
//! The main contract is the law `every_input_has_requests`: whatever the bytes are, they hold a list of requests, which ends
//! for a reason. `http_edge::one_list_of_requests` says that there is no other. `every_block_is_decided` says that a block
//! is a head of the grammar or that none is the block, and `every_stream_is_answered` that a row of the tables of answers
//! stands for all bytes.
//!
//! Nothing here runs: these are facts about the definitions of `http_head` and `http_edge`.
#![tactic(auto)]

mod laws;

pub use laws::{every_block_is_decided, every_input_has_requests, every_stream_is_answered};

//! Heads of HTTP/1.1 messages (RFC 9112): where a head ends in a stream, what it says, how it frames its body, and how it is
//! written.
//!
//! The main contracts are those of `read_request` and `read_reply`: the answer is the one that the table of answers states,
//! whatever the bytes are. A head is what the grammar of the crate `httparse` reads in its default configuration.
//! `read_status` gives the answer of `read_reply` with the status alone. `framing` is a function of the headers alone. What
//! `write_request` and `write_reply` write of a legal head is read back as that head, in version 1.1.
//!
//! Nothing is promised of what a head means beyond that: it is for the crates above. That a head is legal isn't checked where
//! it is written.
#![tactic(auto)]

mod answer;
mod block;
mod body;
mod connection;
mod header;
mod reply;
mod request;
mod spans;
mod transfer;
mod written;

pub use answer::{BlockAnswer, HeadAnswer, StatusAnswer};
pub use block::{
    MOST_HEAD_BYTES, MOST_HEADERS, MOST_LINES, Search, blocks_are_bounded, blocks_stay, find_block,
    heads_end_after_an_empty_line, searches_go_on,
};
pub use body::Framing;
pub use connection::{asks_to_close, has_only, has_option};
pub use header::{Header, Headers};
pub use reply::{
    ReplyHead, one_reply, read_reply, read_reply_on, read_status, reply_of,
    statuses_are_those_of_replies,
};
pub use request::{Head, one_head, read_request, read_request_on, request_of};
pub use transfer::framing;
pub use written::{
    push_end, push_header, push_headers, push_reply, push_request, push_request_line,
    push_status_line, write_reply, write_request, written_heads_are_read_back,
};

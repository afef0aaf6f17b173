//! Cases of links to backends, over links in memory: the head that a backend gets for a request, the head that a client gets for
//! a reply, and what an exchange answers wherever the backend's bytes end, and where a link takes no more or there is none. And of
//! relayed bodies: what a client gets of a body that a backend sends, however it is cut into reads, how much of it is kept, and what
//! comes of it where a read or a write fails.
//!
//! Expected values are worked out by hand, each from the section of RFC 9110 or RFC 9112, or the function of Go's ReverseProxy or of
//! kube-apiserver, that stands above its rows.
#![tactic(auto)]

mod exchanges;
mod heads;
mod links;
mod relays;

use case_rows::{is_row, read_cases};
use std::io;

// The files of cases, in the order in which they are shown.
const MATTERS: &str = "\
forwarded.txt
replies.txt
exchanges.txt
narrow.txt
relays.txt
pieces.txt
kept.txt
faults.txt
";

fn show(rt: &HostRuntime, matter: &str, row: &str) -> io::Result<()> {
    match matter {
        "forwarded.txt" => heads::show_forwarded(rt, row),
        "replies.txt" => heads::show_reply(rt, row),
        "exchanges.txt" => exchanges::show_exchange(rt, row),
        "narrow.txt" => exchanges::show_narrow(rt, row),
        "relays.txt" => relays::show_relay(rt, row),
        "pieces.txt" => relays::show_pieces(rt, row),
        "kept.txt" => relays::show_kept(rt, row),
        _ => relays::show_fault(rt, row),
    }
}

fn show_all(rt: &HostRuntime, matter: &str) -> io::Result<()> {
    let text = read_cases(rt, matter)?;
    println!(rt; "{matter}")?;
    for line in text.lines() {
        if is_row(line) {
            show(rt, matter, line)?;
        }
    }
    Ok(())
}

fn main(rt: HostRuntime) -> io::Result<()> {
    for matter in MATTERS.lines() {
        show_all(&rt, matter)?;
    }
    Ok(())
}

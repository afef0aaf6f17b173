use crate::links::frame_of;
use apiservice_rows::ServiceRef;
use case_rows::{bytes_of, fields, spelled};
use forward_link::{Target, client_head, forward_head};
use front_base::{Address, AuditId, Bytes, NoMemory, Text, Texts, User};
use http_head::{Head, HeadAnswer, ReplyHead, read_reply, read_request, write_reply};
use std::alloc::Global;
use std::io;

const TO: Address = Address {
    ip: [127, 0, 0, 1],
    port: 80,
};

// The audit ID of a request, and that of a reply.
const SENT: AuditId = AuditId {
    boot: 1,
    bay: 2,
    number: 3,
};

const REPLIED: AuditId = AuditId {
    boot: 0,
    bay: 0,
    number: 1,
};

fn text_of(alloc: Global, text: &str) -> Text {
    match Text::copy_of(alloc, text) {
        Ok(text) => text,
        Err(_) => Text::new(String::new(alloc)),
    }
}

// The user ann, of these groups.
fn user_of(alloc: Global, groups: &str) -> User {
    let mut texts = Vec::new(alloc);
    for group in groups.split(',') {
        let _ = texts.push(text_of(alloc, group));
    }
    User {
        name: text_of(alloc, "ann"),
        uid: text_of(alloc, "7"),
        groups: Texts::new(texts),
    }
}

// The service x of the namespace s, or the delegate.
fn target_of(alloc: Global, word: &str) -> Target {
    if word != "service" {
        return Target::Delegate { address: TO };
    }
    Target::Service {
        to: ServiceRef {
            namespace: text_of(alloc, "s"),
            name: text_of(alloc, "x"),
            port: 443,
        },
        address: TO,
    }
}

fn request_of(alloc: Global, text: &str) -> Option<Head> {
    match read_request(alloc, bytes_of(alloc, text).as_slice()) {
        Ok(HeadAnswer::Whole { head, .. }) => Some(head),
        _ => None,
    }
}

fn reply_of(alloc: Global, text: &str) -> Option<ReplyHead> {
    match read_reply(alloc, bytes_of(alloc, text).as_slice()) {
        Ok(HeadAnswer::Whole { head, .. }) => Some(head),
        _ => None,
    }
}

// How a head is spelled that memory gave room for.
fn head_text(alloc: Global, head: Result<Bytes, NoMemory>) -> String {
    match head {
        Ok(head) => spelled(alloc, head.as_slice()),
        Err(_) => String::new(alloc),
    }
}

fn forwarded(alloc: Global, head: &Head, groups: &str, target: &Target) -> String {
    let user = user_of(alloc, groups);
    let sent = forward_head(alloc, head, &user, target, SENT, None);
    drop(user);
    head_text(alloc, sent)
}

fn show_sent(
    rt: &HostRuntime,
    row: &str,
    groups: &str,
    text: &str,
    target: &Target,
) -> io::Result<()> {
    let alloc = rt.alloc();
    let to = target.address();
    match request_of(alloc, text) {
        Some(head) => {
            let sent = forwarded(alloc, &head, groups, target);
            drop(head);
            println!(rt; "{row} => {sent} to {to:?}")
        }
        None => println!(rt; "{row} => no head"),
    }
}

/// The head that is sent on, and where to, by a row of the target, ann's groups and the client's head.
pub fn show_forwarded(rt: &HostRuntime, row: &str) -> io::Result<()> {
    let (word, rest) = fields(row);
    let (groups, text) = fields(rest);
    let target = target_of(rt.alloc(), word);
    let shown = show_sent(rt, row, groups, text, &target);
    drop(target);
    shown
}

// The bytes of a head, whose status has three digits.
fn written(alloc: Global, head: &ReplyHead) -> String {
    if head.status < 100 || 1000 <= head.status {
        return String::new(alloc);
    }
    head_text(alloc, write_reply(alloc, head))
}

fn replied(alloc: Global, head: &ReplyHead, word: &str, old: bool, closing: bool) -> String {
    match client_head(alloc, head, REPLIED, &frame_of(word), old, closing) {
        Ok(head) => {
            let text = written(alloc, &head);
            drop(head);
            text
        }
        Err(_) => String::new(alloc),
    }
}

/// The head that a client gets, by a row of the body's frame, the client's version, whether the connection is closed after the
/// reply, and the backend's head.
pub fn show_reply(rt: &HostRuntime, row: &str) -> io::Result<()> {
    let alloc = rt.alloc();
    let (word, rest) = fields(row);
    let (version, rest) = fields(rest);
    let (after, text) = fields(rest);
    match reply_of(alloc, text) {
        Some(head) => {
            let told = replied(alloc, &head, word, version == "1.0", after == "closes");
            drop(head);
            println!(rt; "{row} => {told}")
        }
        None => println!(rt; "{row} => no head"),
    }
}

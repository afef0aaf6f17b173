// Local paths, and the replies to requests on them.
use crate::fixtures::object;
use apiservice_table::{Change, TableRoutes};
use case_rows::fields;
use front_base::{Bytes, Info, Moment, NoMemory, Text, Texts, User};
use http_head::{Head, Header, Headers};
use local_replies::{Local, LocalPaths, LocalReply, refusal, serve_local, status_reply};
use std::alloc::Global;

/// Shows which local path a path is. The case is the path between quotes.
pub fn show_path(rt: &HostRuntime, paths: &LocalPaths, row: &str) {
    let local = paths.local(rt.alloc(), row.trim_matches('"'));
    let _shown = println!(rt; "{local:?}");
    drop(local);
}

// Shows the status, the media type and the body of a reply.
fn show_reply(rt: &HostRuntime, reply: &LocalReply) {
    let body = str::from_utf8(reply.body.as_slice()).unwrap_or("no text");
    let _shown = println!(rt; "{} {} {body}", reply.status, reply.content.media_type());
}

fn show_answer(rt: &HostRuntime, answer: Result<LocalReply, NoMemory>) {
    if let Ok(reply) = answer {
        show_reply(rt, &reply);
        drop(reply);
    }
}

/// Shows the refusal of a code.
pub fn show_refusal(rt: &HostRuntime, row: &str) {
    show_answer(rt, refusal(rt.alloc(), row.parse().unwrap_or(0)));
}

/// Shows the refusal of a code with a reason and a message of its own.
pub fn show_status(rt: &HostRuntime, row: &str) {
    let (code, rest) = fields(row);
    let (reason, message) = fields(rest);
    show_answer(
        rt,
        status_reply(rt.alloc(), code.parse().unwrap_or(0), reason, message),
    );
}

fn text(alloc: Global, text: &str) -> Text {
    match Text::copy_of(alloc, text) {
        Ok(text) => text,
        Err(_) => Text::new(String::new(alloc)),
    }
}

fn empty(alloc: Global) -> Text {
    Text::new(String::new(alloc))
}

// A user of one group.
fn of_group(alloc: Global, group: &str) -> User {
    let groups = match vec![in alloc; text(alloc, group)] {
        Ok(groups) => groups,
        Err(_) => Vec::new(alloc),
    };
    User {
        name: empty(alloc),
        uid: empty(alloc),
        groups: Texts::new(groups),
    }
}

// What a request asks for, by its verb.
fn asked(alloc: Global, verb: &str) -> Info {
    Info {
        resource_request: true,
        path: empty(alloc),
        verb: text(alloc, verb),
        group: empty(alloc),
        version: empty(alloc),
        namespace: empty(alloc),
        resource: empty(alloc),
        subresource: empty(alloc),
        name: empty(alloc),
    }
}

// Shows the change that was made, if one was.
fn show_made(rt: &HostRuntime, change: &Option<Change>) {
    let _shown = match change {
        None => println!(rt; "    no change"),
        Some(Change::Create(row)) => println!(rt; "    create {}", row.name.as_str()),
        Some(Change::Replace(row)) => println!(rt; "    replace {}", row.name.as_str()),
        Some(Change::Delete(name)) => println!(rt; "    delete {}", name.as_str()),
        Some(Change::Patch { name, .. }) => println!(rt; "    patch {}", name.as_str()),
    };
}

fn head_with(alloc: Global, method: &str, target: &str, headers: Vec<Header>) -> Head {
    Head {
        method: text(alloc, method),
        target: text(alloc, target),
        minor: 1,
        headers: Headers::new(headers),
    }
}

fn bytes(alloc: Global, text: &str) -> Bytes {
    match text.as_bytes().to_vec(alloc) {
        Ok(bytes) => Bytes::new(bytes),
        Err(_) => Bytes::new(Vec::new(alloc)),
    }
}

// What a media type is told as: as what a look wants, and as what else brings.
fn media_header(method: &str) -> &'static str {
    match method {
        "GET" | "HEAD" => "Accept",
        _ => "Content-Type",
    }
}

// A head with that media type.
fn typed_head(alloc: Global, method: &str, media_type: &str, target: &str) -> Head {
    let header = Header {
        name: text(alloc, media_header(method)),
        value: bytes(alloc, media_type),
    };
    match vec![in alloc; header] {
        Ok(headers) => head_with(alloc, method, target, headers),
        Err(_) => head_with(alloc, method, target, Vec::new(alloc)),
    }
}

// A head of a method, with the media type that follows it after a blank, if one does.
fn head_of(alloc: Global, sent: &str, target: &str) -> Head {
    match sent.split_once(' ') {
        Some((method, media_type)) => typed_head(alloc, method, media_type, target),
        None => head_with(alloc, sent, target, Vec::new(alloc)),
    }
}

// The body itself where a media type is sent, and otherwise none of a DELETE, and the object of a group.
fn body_of(alloc: Global, sent: &str, last: &str) -> String {
    match sent.split_once(' ') {
        Some(_) => text(alloc, last).into_string(),
        None if sent == "DELETE" => String::new(alloc),
        None => object(alloc, "v1", last),
    }
}

// When all requests are read: as 2025 began.
fn new_year() -> Moment {
    Moment::new(1_735_689_600_000_000).unwrap_or(Moment::epoch())
}

// Serves a request with the verb, the method and the body of a case, and shows the reply and the change that was made.
fn show_served(
    rt: &HostRuntime,
    routes: &mut TableRoutes,
    local: &Local,
    target: &str,
    user: &User,
    asks: &str,
) {
    let alloc = rt.alloc();
    let (verb, rest) = fields(asks);
    let (sent, last) = fields(rest);
    let info = asked(alloc, verb);
    let head = head_of(alloc, sent, target);
    let body = body_of(alloc, sent, last);
    let served = serve_local(
        alloc,
        local,
        &info,
        &head,
        new_year(),
        body.as_bytes(),
        user,
        routes,
    );
    drop(info);
    drop(head);
    if let Ok((reply, change)) = served {
        show_reply(rt, &reply);
        show_made(rt, &change);
        drop(reply);
        drop(change);
    }
}

fn path_in(target: &str) -> &str {
    match target.split_once('?') {
        Some((path, _)) => path,
        None => target,
    }
}

/// Shows the reply to a request, and the change that was made. The case is a target, the group of the user, the verb, the
/// method, and the group of the object in the body; or the method and a media type, and the body.
pub fn show_request(rt: &HostRuntime, paths: &LocalPaths, routes: &mut TableRoutes, row: &str) {
    let alloc = rt.alloc();
    let (target, rest) = fields(row);
    let (group, asks) = fields(rest);
    match paths.local(alloc, path_in(target)) {
        Ok(Some(local)) => {
            let user = of_group(alloc, group);
            show_served(rt, routes, &local, target, &user, asks);
            drop(user);
            drop(local);
        }
        _ => {
            let _shown = println!(rt; "not local");
        }
    }
}

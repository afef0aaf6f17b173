// What clients, backend and webhook do in one run.
use crate::peers::{answer_next, connect, ends, listen, reads_up_to};
use front_base::Address;
use std::alloc::Global;
use std::io;
use std::io::Write;
use std::net::{TcpListener, TcpStream};

const OBJECT: &str =
    r#"{"kind":"APIService","apiVersion":"apiregistration.k8s.io/v1","metadata":{"name":"v1.g"},
"spec":{"service":{"namespace":"s","name":"x"},"group":"g","version":"v1","groupPriorityMinimum":1000,"versionPriority":15}}"#;

const OK: &str = "HTTP/1.1 200 OK\r\nContent-Length: 0\r\n\r\n";

const THINGS: &str = "HTTP/1.1 200 OK\r\nContent-Length: 6\r\n\r\nthings";

/// The peers of one run, which begins with nobody else.
#[derive(Drop)]
pub struct Peers {
    pub backend: TcpListener,
    pub hook: TcpListener,
}

impl Peers {
    pub fn open(rt: &HostRuntime) -> io::Result<Peers> {
        Ok(Peers {
            backend: listen(rt)?,
            hook: listen(rt)?,
        })
    }

    /// Where the webhook's peer and the backend listen.
    pub fn ports(&self) -> io::Result<(u16, u16)> {
        Ok((
            self.hook.local_addr()?.port(),
            self.backend.local_addr()?.port(),
        ))
    }
}

// A client asks for an API to be registered, with these headers more.
fn posts(alloc: Global, client: &mut TcpStream, headers: &str) -> io::Result<()> {
    let head = format!(in alloc;
        "POST /apis/apiregistration.k8s.io/v1/apiservices HTTP/1.1\r\nHost: a\r\nAuthorization: Bearer t1\r\n{headers}Content-Length: {}\r\n\r\n",
        OBJECT.len()
    )?;
    client.write_all(head.as_bytes())?;
    client.write_all(OBJECT.as_bytes())
}

// A client registers an API, and its connection ends then.
fn registers(rt: &HostRuntime, door: Address) -> io::Result<bool> {
    let alloc = rt.alloc();
    let mut client = connect(rt, door)?;
    posts(alloc, &mut client, "Connection: close\r\n")?;
    Ok(reads_up_to(alloc, &mut client, "HTTP/1.1 201 Created\r\n")? && ends(&mut client)?)
}

// The same client may not delete the API, can't register it a second time, and finds it in the list.
fn is_refused(alloc: Global, client: &mut TcpStream) -> io::Result<bool> {
    client.write_all(
        b"DELETE /apis/apiregistration.k8s.io/v1/apiservices/v1.g HTTP/1.1\r\nHost: a\r\n\r\n",
    )?;
    if !reads_up_to(alloc, client, "HTTP/1.1 403 Forbidden\r\n")? {
        return Ok(false);
    }
    posts(alloc, client, "")?;
    if !reads_up_to(alloc, client, "HTTP/1.1 409 Conflict\r\n")? {
        return Ok(false);
    }
    client.write_all(
        b"GET /apis/apiregistration.k8s.io/v1/apiservices HTTP/1.1\r\nHost: a\r\n\r\n",
    )?;
    Ok(
        reads_up_to(alloc, client, "HTTP/1.1 200 OK\r\n")?
            && reads_up_to(alloc, client, "\"versionPriority\":15}}]}")?,
    )
}

// The backend sends a watch's events, each once the client has the one before.
fn sends_events(alloc: Global, link: &mut TcpStream, watcher: &mut TcpStream) -> io::Result<bool> {
    link.write_all(b"HTTP/1.1 200 OK\r\nTransfer-Encoding: chunked\r\n\r\n")?;
    for event in ["one", "two", "three", "four"] {
        let chunk = format!(in alloc; "{:x}\r\n{event}\r\n", event.len())?;
        link.write_all(chunk.as_bytes())?;
        if !reads_up_to(alloc, watcher, event)? {
            return Ok(false);
        }
    }
    link.write_all(b"0\r\n\r\n")?;
    reads_up_to(alloc, watcher, "0\r\n\r\n")
}

// A client asks for the API, and its request is sent on.
fn finds(alloc: Global, client: &mut TcpStream, backend: &TcpListener) -> io::Result<bool> {
    client.write_all(b"GET /apis/g/v1/things HTTP/1.1\r\nHost: a\r\n\r\n")?;
    Ok(answer_next(alloc, backend, "\r\n\r\n", THINGS)? && reads_up_to(alloc, client, "things")?)
}

/// One bay serves a client's watch. While it lasts, its first event is posted, and another bay serves a second client, who
/// registers an API. The events of the watch reach the first client one by one, and then its bay knows that API.
pub fn play(rt: &HostRuntime, door: Address, peers: &Peers) -> io::Result<&'static str> {
    let alloc = rt.alloc();
    let mut watcher = connect(rt, door)?;
    watcher.write_all(b"GET /api/v1/pods?watch=1 HTTP/1.1\r\nHost: a\r\n\r\n")?;
    if !answer_next(alloc, &peers.hook, "]}", OK)? {
        return Ok("the arrival of the watch was not posted");
    }
    let (mut link, _) = peers.backend.accept()?;
    if !reads_up_to(alloc, &mut link, "\r\n\r\n")? {
        return Ok("the watch was not sent on");
    }
    if !registers(rt, door)? {
        return Ok("nobody was served beside the watch");
    }
    if !sends_events(alloc, &mut link, &mut watcher)? {
        return Ok("an event of the watch was held back");
    }
    if !finds(alloc, &mut watcher, &peers.backend)? {
        return Ok("one bay did not see what another one changed");
    }
    if !is_refused(alloc, &mut watcher)? {
        return Ok("the table that all share answered otherwise");
    }
    for _ in 0..12 {
        if !answer_next(alloc, &peers.hook, "]}", OK)? {
            return Ok("an event was not posted");
        }
    }
    Ok("all was served")
}

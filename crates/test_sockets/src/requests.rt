// Where the requests of a connection begin and end, as the real connection sees it. In the rows `<` stands for a carriage return
// and `>` for a line feed.
use crate::common::{connect, listen, read_out};
use front_base::Address;
use front_ports::{Conn, Door, PortFault, Source, write_all};
use std::alloc::Global;
use std::io::{Read, Write};
use std::net::{Shutdown, TcpStream};
use std::test::Fail;
use std::time::Duration;
use std::{io, thread};
use tcp_ports::{DEFAULT_LIMITS, ServedClient, TcpDoor, TcpLimits};

// A body may wait for longer than a head, and an idle connection for less than both.
const HASTY: TcpLimits = TcpLimits {
    idle_timeout: 2_000,
    idle_grace: 5,
    fresh_grace: 5,
    read_header_timeout: 30,
    min_rate: 1_000,
    stall_timeout: 60,
    wake_interval: 10,
    ..DEFAULT_LIMITS
};

const CONTINUE: &str = "HTTP/1.1 100 Continue\r\n\r\n";

fn byte_of(letter: u8) -> u8 {
    match letter {
        b'<' => b'\r',
        b'>' => b'\n',
        other => other,
    }
}

// The bytes of a row, without bars. One that memory refuses is left out.
fn bytes_of(alloc: Global, row: &str) -> Vec<u8> {
    let mut bytes = Vec::new(alloc);
    for letter in row.as_bytes() {
        if *letter != b'|' {
            let _pushed = bytes.push(byte_of(*letter));
        }
    }
    bytes
}

fn send(rt: &HostRuntime, client: &mut TcpStream, row: &str) -> io::Result<()> {
    client.write_all(bytes_of(rt.alloc(), row).as_slice())
}

// Reads until the time of the connection has passed. Its client ends after that, and waits for no linger.
fn is_late<S: Source>(rt: &HostRuntime, conn: &mut S, client: &TcpStream) -> io::Result<bool> {
    let (end, _) = read_out(rt, conn)?;
    client.shutdown(Shutdown::Write)?;
    Ok(end.is_err())
}

// Serves a client that sent a row and waits. Whether it was waited for.
fn wait_for(rt: &HostRuntime, door: &mut TcpDoor<'_, HostRuntime>, client: &TcpStream) -> bool {
    let Ok(Some(mut conn)) = door.next() else {
        return false;
    };
    let late = is_late(rt, &mut conn, client).unwrap_or(false);
    door.done(conn);
    late
}

// Whether this is what a client gets that sends a row and waits.
fn gets(
    rt: &HostRuntime,
    door: &mut TcpDoor<'_, HostRuntime>,
    at: Address,
    row: &str,
    want: &str,
) -> io::Result<bool> {
    let mut client = connect(rt, at)?;
    send(rt, &mut client, row)?;
    let waited = wait_for(rt, door, &client);
    Ok(waited && io::read_to_string(rt.alloc(), client)?.as_str() == want)
}

// A bar stands where a head ends.
const HEADS: &str = "\
PUT / HTTP/1.1<>Expect:100-continue<>Content-Length:9<><>|body
PUT / HTTP/1.1>Expect:100-continue>Content-Length:9>>|
PUT / HTTP/1.1>Expect:100-continue>Content-Length:9<>>|>>
><>PUT / HTTP/1.1>Expect:100-continue>Content-Length:9><>|GET
<<PUT / HTTP/1.1<>Expect:100-continue<>Content-Length:9><>|";

// Whether the head of a row ends at its bar, and no byte before it.
fn ends_at_bar(
    rt: &HostRuntime,
    door: &mut TcpDoor<'_, HostRuntime>,
    at: Address,
    row: &str,
) -> io::Result<bool> {
    let (head, rest) = row.split_once('|').unwrap_or(("", row));
    let before = head.strip_suffix('>').unwrap_or(head);
    let all = if rest.is_empty() { CONTINUE } else { "" };
    Ok(
        gets(rt, door, at, before, "")?
            && gets(rt, door, at, head, CONTINUE)?
            && gets(rt, door, at, row, all)?,
    )
}

// The first row whose head doesn't end at its bar.
fn wrong_head(
    rt: &HostRuntime,
    door: &mut TcpDoor<'_, HostRuntime>,
    at: Address,
) -> io::Result<&'static str> {
    for row in HEADS.lines() {
        if !ends_at_bar(rt, door, at, row)? {
            return Ok(row);
        }
    }
    Ok("none")
}

#[test]
fn a_head_ends_at_its_first_empty_line(rt: HostRuntime) -> Result<(), Fail> {
    let listener = listen(&rt, HASTY)?;
    let client = ServedClient::new();
    let mut door = TcpDoor::new(&rt, &listener, &client, 0);
    assert_eq!(rt; wrong_head(&rt, &mut door, listener.address())?, "none");
    Ok(())
}

// After a bar that begins it, a row's client gets no interim reply.
const EXPECTS: &str = "\
PUT / HTTP/1.1<>EXPECT: \t100-Continue  <>Transfer-Encoding: Chunked<><>
PUT / HTTP/1.1<>Host: a<>expect:                                   100-continue<>content-length: 0000000000000000003<><>
PUT / HTTP/1.1<>Expect: 100-continue<>Expect: other<>Content-Length: 3<><>
PUT / HTTP/1.1<>Content-Length: 3<><>abcPUT / HTTP/1.1<>Content-Length: 3<>Expect: 100-continue<><>
|PUT / HTTP/1.0<>Expect: 100-continue<>Content-Length: 3<><>
|GET / HTTP/1.1<>Expect: 100-continue<><>
|PUT / HTTP/1.1<>Expect: 100-continue<>Content-Length: 0<><>
|PUT / HTTP/1.1<>Expect: 100-continue<>Transfer-Encoding: chunked<><>3
|PUT / HTTP/1.1<>Expect: 100-continued<>Content-Length: 3<><>
|PUT / HTTP/1.1<>Expect: 100-continue, other<>Content-Length: 3<><>
|PUT / HTTP/1.1<>X-Expect: 100-continue<>Content-Length: 3<><>
|PUT / HTTP/1.1<>Expect: 100-continue<>Content-Length: 3<>Content-Length: 3<><>
|PUT / HTTP/1.1<>Expect: 100-continue<>Content-Length: 3<><>abcPUT / HTTP/1.1<>Content-Length: 3<><>";

// The first row of which that isn't so.
fn wrong_reply(
    rt: &HostRuntime,
    door: &mut TcpDoor<'_, HostRuntime>,
    at: Address,
) -> io::Result<&'static str> {
    for row in EXPECTS.lines() {
        let want = if row.starts_with('|') { "" } else { CONTINUE };
        if !gets(rt, door, at, row, want)? {
            return Ok(row);
        }
    }
    Ok("none")
}

#[test]
fn a_client_that_waits_with_its_body_gets_an_interim_reply(rt: HostRuntime) -> Result<(), Fail> {
    let listener = listen(&rt, HASTY)?;
    let client = ServedClient::new();
    let mut door = TcpDoor::new(&rt, &listener, &client, 0);
    assert_eq!(rt; wrong_reply(&rt, &mut door, listener.address())?, "none");
    Ok(())
}

const PUT: &str = "PUT / HTTP/1.1<>Expect: 100-continue<>Content-Length: 4<><>";

// Sends a body in two pieces once the interim reply has come.
fn send_pieces(rt: &HostRuntime, client: &mut TcpStream) -> io::Result<()> {
    send(rt, client, PUT)?;
    client.read_exact(&mut [0u8; 25])?;
    client.write_all(b"ab")?;
    thread::sleep(rt, Duration::from_millis(20));
    client.write_all(b"cd")
}

// Whether the reply alone comes then.
fn put_in_pieces(rt: &HostRuntime, at: Address) -> io::Result<bool> {
    let mut client = connect(rt, at)?;
    send_pieces(rt, &mut client)?;
    Ok(io::read_to_string(rt.alloc(), client)?.as_str() == "reply")
}

// Reads so many bytes, and replies.
fn answer_bytes<C: Conn>(conn: &mut C, most: usize) -> Result<(), PortFault> {
    let mut buf = [0u8; 512];
    let mut count = 0usize;
    for _ in 0..most {
        if count < most {
            count = count.saturating_add(conn.read(&mut buf)?);
        }
    }
    write_all(conn, b"reply")
}

fn serve_bytes(mut door: TcpDoor<'_, HostRuntime>, most: usize) -> bool {
    let Ok(Some(mut conn)) = door.next() else {
        return false;
    };
    let answered = answer_bytes(&mut conn, most).is_ok();
    door.done(conn);
    answered
}

#[test]
fn one_interim_reply_is_enough(rt: HostRuntime) -> Result<(), Fail> {
    let listener = listen(&rt, DEFAULT_LIMITS)?;
    let listener = &listener;
    let client = ServedClient::new();
    let door = TcpDoor::new(&rt, listener, &client, 1);
    let (got, served) = thread::join(
        &rt,
        || put_in_pieces(&rt, listener.address()).unwrap_or(false),
        || serve_bytes(door, PUT.len() + 4),
    );
    assert!(rt; got && served);
    Ok(())
}

// Answers what came, and reads on while another connection waits. Whether that fails, and after how many milliseconds.
fn read_after<C: Conn>(rt: &HostRuntime, conn: &mut C, at: Address) -> io::Result<(bool, u64)> {
    let _ = conn.read(&mut [0u8; 512]);
    let _ = write_all(conn, b"reply");
    let _other = connect(rt, at)?;
    let (end, spent) = read_out(rt, conn)?;
    Ok((end.is_err(), spent))
}

// The same of the next connection. Its client and the other one have ended then.
fn serve_after(
    rt: &HostRuntime,
    door: &mut TcpDoor<'_, HostRuntime>,
    at: Address,
    client: TcpStream,
) -> Option<(bool, u64)> {
    let Ok(Some(mut conn)) = door.next() else {
        return None;
    };
    let end = read_after(rt, &mut conn, at).ok();
    drop(client);
    door.done(conn);
    if let Ok(Some(other)) = door.next() {
        door.done(other);
    }
    end
}

fn end_after(
    rt: &HostRuntime,
    door: &mut TcpDoor<'_, HostRuntime>,
    at: Address,
    row: &str,
) -> Option<(bool, u64)> {
    let mut client = connect(rt, at).ok()?;
    send(rt, &mut client, row).ok()?;
    serve_after(rt, door, at, client)
}

// A bar stands before what came of a next request: `|` before a part of a head, and `||` before one of a body.
const ANSWERED: &str = "\
GET / HTTP/1.1<><>
GET / HTTP/1.1<><><>
GET / HTTP/1.1<><>GET / HTTP/1.1<><>
PUT / HTTP/1.1<>Content-Length: 3<><>abc
PUT / HTTP/1.1<>Transfer-Encoding: chunked<><>3;x=y<>abc<>0<><>
GET / HTTP/1.1<><>|G
PUT / HTTP/1.1<>Content-Length: 3<><>abc|PUT / HTTP/1.1<>Content-Length: 3<>
PUT / HTTP/1.1<>Transfer-Encoding: chunked<><>3<>abc<>0<><>|PUT
GET / HTTP/1.1<><>||PUT / HTTP/1.1<>Content-Length: 3<><>
GET / HTTP/1.1<><>||PUT / HTTP/1.1<>Content-Length: 3<><>ab
PUT / HTTP/1.1<>Content-Length: 3<><>abc||PUT / HTTP/1.1<>Transfer-Encoding: chunked<><>3<>abc<>0<>";

// How a row's connection ends: whether that is a fault, and after how many milliseconds at least.
fn end_of(row: &str) -> (bool, u64) {
    if row.contains("||") {
        (true, HASTY.stall_timeout)
    } else if row.contains('|') {
        (true, HASTY.read_header_timeout)
    } else {
        (false, 0)
    }
}

fn ends_right(
    rt: &HostRuntime,
    door: &mut TcpDoor<'_, HostRuntime>,
    at: Address,
    row: &str,
) -> bool {
    let (fails, least) = end_of(row);
    match end_after(rt, door, at, row) {
        Some((failed, spent)) => failed == fails && spent >= least,
        None => false,
    }
}

// The first row whose connection doesn't end as it should.
fn wrong_end(rt: &HostRuntime, door: &mut TcpDoor<'_, HostRuntime>, at: Address) -> &'static str {
    for row in ANSWERED.lines() {
        if !ends_right(rt, door, at, row) {
            return row;
        }
    }
    "none"
}

#[test]
fn half_a_request_behind_another_is_not_idle(rt: HostRuntime) -> Result<(), Fail> {
    let listener = listen(&rt, HASTY)?;
    let client = ServedClient::new();
    let mut door = TcpDoor::new(&rt, &listener, &client, 0);
    assert_eq!(rt; wrong_end(&rt, &mut door, listener.address()), "none");
    Ok(())
}

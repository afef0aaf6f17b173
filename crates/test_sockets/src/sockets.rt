use crate::common::{SHORT, address_of, connect, listen, millis_since, read_out};
use front_base::Address;
use front_ports::{ByteSink, Conn, Dial, Door, Link, PortFault, Source, write_all};
use std::io::{ErrorKind, Read, Write};
use std::net::{Net, Shutdown, TcpListener, TcpStream};
use std::test::Fail;
use std::thread::Threads;
use std::time::{Duration, Instant};
use std::{io, thread};
use tcp_ports::{
    DEFAULT_LIMITS, DialFault, ServedClient, SharedListener, TcpConn, TcpDial, TcpDoor, TcpLimits,
};

// No wake-up is made up for within the time of a round of the test that looks for lost ones.
const WAKEFUL: TcpLimits = TcpLimits {
    idle_grace: 5,
    fresh_grace: 10,
    wake_interval: 30_000,
    ..DEFAULT_LIMITS
};

const MOST_ROUND: u64 = 15_000;

// Answers a request before all of it was read.
fn answer_early<C: Conn>(conn: &mut C) -> Result<(), PortFault> {
    let mut head = [0u8; 18];
    conn.read(&mut head)?;
    let peer = conn.peer();
    write_all(conn, &peer)?;
    write_all(conn, &head)
}

// The same over the next connection, which is handed back. Whether it was answered.
fn is_answered(door: &mut TcpDoor<'_, HostRuntime>) -> bool {
    let Ok(Some(mut conn)) = door.next() else {
        return false;
    };
    let answered = answer_early(&mut conn).is_ok();
    door.done(conn);
    answered
}

// What a client gets that is answered so. Nothing where it isn't.
fn early_reply(
    rt: &HostRuntime,
    door: &mut TcpDoor<'_, HostRuntime>,
    at: Address,
) -> io::Result<String> {
    let mut client = connect(rt, at)?;
    client.write_all(b"GET / HTTP/1.1\r\n\r\nnot read")?;
    if is_answered(door) {
        io::read_to_string(rt.alloc(), client)
    } else {
        Ok(String::new(rt.alloc()))
    }
}

const EARLY: &str = "\x7f\0\0\x01GET / HTTP/1.1\r\n\r\n";

#[test]
fn a_door_serves_as_many_connections_as_it_may(rt: HostRuntime) -> Result<(), Fail> {
    let listener = listen(&rt, SHORT)?;
    let client = ServedClient::new();
    let mut door = TcpDoor::new(&rt, &listener, &client, 2);
    for _ in 0..2 {
        let reply = early_reply(&rt, &mut door, listener.address())?;
        assert_eq!(rt; reply.as_str(), EARLY);
    }
    assert!(rt; matches!(door.next(), Ok(None)));
    Ok(())
}

// Serves one connection, and ends it first.
fn serve_once(rt: &HostRuntime, listener: &SharedListener) -> io::Result<String> {
    let client = ServedClient::new();
    let mut door = TcpDoor::new(rt, listener, &client, 1);
    early_reply(rt, &mut door, listener.address())
}

// Where a listener was that has served and ended its connections first, and what the client of the last one got.
fn old_address(rt: &HostRuntime) -> io::Result<(Address, String)> {
    let listener = listen(rt, SHORT)?;
    let reply = serve_once(rt, &listener)?;
    Ok((listener.address(), reply))
}

#[test]
fn a_port_is_bound_again_at_once(rt: HostRuntime) -> Result<(), Fail> {
    let (at, reply) = old_address(&rt)?;
    assert_eq!(rt; reply.as_str(), EARLY);
    let listener = SharedListener::bind(&rt, rt.alloc(), at, SHORT, false)?;
    assert_eq!(rt; listener.address(), at);
    assert!(rt; listener.open().is_ok());
    assert!(rt; SharedListener::bind(&rt, rt.alloc(), at, SHORT, false).is_err());
    Ok(())
}

// Asks over a connection, and replies.
fn answer_once<C: Conn>(client: &mut TcpStream, conn: &mut C) -> Option<()> {
    client.write_all(b"GET / HTTP/1.1\r\n\r\n").ok()?;
    conn.read(&mut [0u8; 64]).ok()?;
    write_all(conn, b"reply").ok()
}

// How long a connection is idle before it ends, which it does without a fault.
fn idle_end<C: Conn>(rt: &HostRuntime, conn: &mut C) -> Option<u64> {
    match read_out(rt, conn) {
        Ok((Ok(_), spent)) => Some(spent),
        _ => None,
    }
}

// Hands the next connection of a door back. Whether there is one.
fn is_skipped(door: &mut TcpDoor<'_, HostRuntime>) -> bool {
    match door.next() {
        Ok(Some(conn)) => {
            door.done(conn);
            true
        }
        _ => false,
    }
}

// The same while another one waits, which comes after it.
fn idle_end_beside<'b>(
    rt: &HostRuntime,
    door: &mut TcpDoor<'b, HostRuntime>,
    mut conn: TcpConn<'b, HostRuntime>,
    at: Address,
) -> Option<u64> {
    let Ok(_other) = connect(rt, at) else {
        door.done(conn);
        return None;
    };
    let spent = idle_end(rt, &mut conn);
    door.done(conn);
    if is_skipped(door) { spent } else { None }
}

// How long the next connection is idle before it ends, which is answered first where that is due.
fn next_idle_end(
    rt: &HostRuntime,
    door: &mut TcpDoor<'_, HostRuntime>,
    client: &mut TcpStream,
    at: Address,
    how: &str,
) -> Option<u64> {
    let Ok(Some(mut conn)) = door.next() else {
        return None;
    };
    if how.contains("answered") && answer_once(client, &mut conn).is_none() {
        door.done(conn);
        return None;
    }
    if how.contains("other") {
        return idle_end_beside(rt, door, conn, at);
    }
    let spent = idle_end(rt, &mut conn);
    door.done(conn);
    spent
}

fn idle_time(
    rt: &HostRuntime,
    door: &mut TcpDoor<'_, HostRuntime>,
    at: Address,
    how: &str,
) -> Option<u64> {
    let mut client = connect(rt, at).ok()?;
    next_idle_end(rt, door, &mut client, at, how)
}

#[test]
fn an_idle_connection_makes_room(rt: HostRuntime) -> Result<(), Fail> {
    let listener = listen(&rt, SHORT)?;
    let client = ServedClient::new();
    let mut door = TcpDoor::new(&rt, &listener, &client, 0);
    for (how, least, most) in [
        ("fresh", 1_990, 20_000),
        ("fresh, other waits", 59, 1_900),
        ("answered, other waits", 119, 1_900),
    ] {
        let spent = idle_time(&rt, &mut door, listener.address(), how).unwrap_or(0);
        assert!(rt; least <= spent && spent <= most, "{how}: {spent} ms");
    }
    let counts = listener.counts();
    assert_eq!(rt;
        [counts.accepted, counts.open, counts.idle, counts.well],
        [5, 0, 3, 2]
    );
    Ok(())
}

// What a connection wishes alone, while another one waits, and once the listener was closed.
fn wishes_beside<C: Conn>(
    rt: &HostRuntime,
    listener: &SharedListener,
    conn: &mut C,
) -> Option<[bool; 3]> {
    let alone = conn.wishes_to_end();
    let Ok(_other) = connect(rt, listener.address()) else {
        return None;
    };
    let beside = conn.wishes_to_end();
    listener.close();
    Some([alone, beside, conn.wishes_to_end()])
}

fn wishes_of_next(
    rt: &HostRuntime,
    listener: &SharedListener,
    door: &mut TcpDoor<'_, HostRuntime>,
) -> Option<[bool; 3]> {
    let Ok(_client) = connect(rt, listener.address()) else {
        return None;
    };
    let Ok(Some(mut conn)) = door.next() else {
        return None;
    };
    let wishes = wishes_beside(rt, listener, &mut conn);
    door.done(conn);
    wishes
}

#[test]
fn a_connection_wishes_to_end_where_another_waits(rt: HostRuntime) -> Result<(), Fail> {
    let listener = listen(&rt, SHORT)?;
    let client = ServedClient::new();
    let mut door = TcpDoor::new(&rt, &listener, &client, 0);
    assert_eq!(rt;
        wishes_of_next(&rt, &listener, &mut door),
        Some([false, true, true])
    );
    Ok(())
}

// Writes more than a client's and the system's buffers hold.
fn write_much<S: ByteSink>(sink: &mut S) -> Result<(), PortFault> {
    let piece = [b'x'; 4096];
    for _ in 0..20_000 {
        write_all(sink, &piece)?;
    }
    Ok(())
}

// How a connection or a link ends, and after how many milliseconds.
type End = (Result<usize, PortFault>, u64);

// One that no test expects.
const NO_END: End = (Ok(0), 0);

// How the next connection of a door ends, whose client leaves after that.
fn next_end(
    rt: &HostRuntime,
    door: &mut TcpDoor<'_, HostRuntime>,
    client: &TcpStream,
) -> Option<End> {
    let Ok(Some(mut conn)) = door.next() else {
        return None;
    };
    let end = read_out(rt, &mut conn).ok();
    let left = client.shutdown(Shutdown::Both).is_ok();
    door.done(conn);
    if left { end } else { None }
}

// How a connection ends whose client sent this and waits.
fn slow_end(
    rt: &HostRuntime,
    door: &mut TcpDoor<'_, HostRuntime>,
    at: Address,
    text: &str,
) -> Option<End> {
    let mut client = connect(rt, at).ok()?;
    client.write_all(text.as_bytes()).ok()?;
    next_end(rt, door, &client)
}

// What comes of writing much to a client that takes nothing.
fn stalled_write(
    rt: &HostRuntime,
    door: &mut TcpDoor<'_, HostRuntime>,
    at: Address,
) -> Option<Result<(), PortFault>> {
    let _client = connect(rt, at).ok()?;
    let Ok(Some(mut conn)) = door.next() else {
        return None;
    };
    let written = write_much(&mut conn);
    door.done(conn);
    Some(written)
}

#[test]
fn a_slow_client_is_a_fault(rt: HostRuntime) -> Result<(), Fail> {
    let listener = listen(&rt, SHORT)?;
    let served = ServedClient::new();
    let mut door = TcpDoor::new(&rt, &listener, &served, 0);
    for (text, least) in [
        ("GET / HT", 150),
        ("PUT / HTTP/1.1\r\nContent-Length: 9\r\n\r\nabc", 290),
    ] {
        let (end, spent) = slow_end(&rt, &mut door, listener.address(), text).unwrap_or(NO_END);
        assert_eq!(rt; end, Err(PortFault), "{text}");
        assert!(rt; spent >= least, "{text}: {spent} ms");
    }
    assert_eq!(rt;
        stalled_write(&rt, &mut door, listener.address()),
        Some(Err(PortFault))
    );
    let counts = listener.counts();
    assert_eq!(rt;
        [counts.accepted, counts.late, counts.slow, counts.well],
        [3, 2, 1, 0]
    );
    Ok(())
}

const HEAD: &str = "HTTP/1.1 200 OK\r\n\r\n";

// The backend's end of a link, on which so much of a reply came.
fn peer_of<S: Source>(link: &mut S, backend: &TcpListener, reply: &str) -> Option<TcpStream> {
    let (mut peer, _) = backend.accept().ok()?;
    peer.write_all(reply.as_bytes()).ok()?;
    link.read(&mut [0u8; 64]).ok()?;
    Some(peer)
}

// The end of a stream that is silent for longer than a head or a post may be, and goes on: where its client leaves, or else
// where the listener is closed.
fn silent_end<S: Source>(
    rt: &HostRuntime,
    link: &mut S,
    backend: &TcpListener,
    (client, listener): (&TcpStream, &SharedListener),
    leaves: bool,
) -> Option<End> {
    let mut peer = peer_of(link, backend, HEAD)?;
    thread::sleep(rt, Duration::from_millis(600));
    peer.write_all(b"event").ok()?;
    link.read(&mut [0u8; 64]).ok()?;
    if leaves {
        client.shutdown(Shutdown::Both).ok()?;
    } else {
        listener.close();
    }
    read_out(rt, link).ok()
}

// The end of a reply of three bytes, each of which comes after a pause, and then none.
fn stalled_end<S: Source>(rt: &HostRuntime, link: &mut S, backend: &TcpListener) -> Option<End> {
    let mut peer = peer_of(link, backend, HEAD)?;
    for _ in 0..3 {
        thread::sleep(rt, Duration::from_millis(200));
        peer.write_all(b"a").ok()?;
        if link.read(&mut [0u8; 64]).ok()? != 1 {
            return None;
        }
    }
    read_out(rt, link).ok()
}

// What comes after the head of a reply for a client.
#[derive(Clone, Copy)]
enum Rest {
    // That to a long-running request, after which its client leaves, or else the listener is closed.
    Stream { leaves: bool },
    // That to another one.
    Pieces,
}

// How such a reply ends over the next link of a dial.
fn link_end(
    rt: &HostRuntime,
    dial: &mut TcpDial<'_, HostRuntime>,
    backend: &TcpListener,
    ends: (&TcpStream, &SharedListener),
    how: Rest,
) -> Option<End> {
    let to = address_of(backend.local_addr().ok()?);
    let Ok(mut link) = dial.dial(to, matches!(how, Rest::Stream { .. })) else {
        return None;
    };
    let end = match how {
        Rest::Stream { leaves } => silent_end(rt, &mut link, backend, ends, leaves),
        Rest::Pieces => stalled_end(rt, &mut link, backend),
    };
    dial.done(link);
    end
}

// The same while its client is served.
fn reply_end(
    rt: &HostRuntime,
    listener: &SharedListener,
    backend: &TcpListener,
    how: Rest,
) -> Option<End> {
    let client = connect(rt, listener.address()).ok()?;
    let served = ServedClient::new();
    let mut door = TcpDoor::new(rt, listener, &served, 0);
    let Ok(Some(conn)) = door.next() else {
        return None;
    };
    let fault = DialFault::new();
    let mut dial = TcpDial::new(rt, listener, &served, &fault);
    let end = link_end(rt, &mut dial, backend, (&client, listener), how);
    door.done(conn);
    end
}

#[test]
fn a_stream_may_be_silent_while_its_client_is_there(rt: HostRuntime) -> Result<(), Fail> {
    let listener = listen(&rt, SHORT)?;
    let backend = TcpListener::bind(&rt, "127.0.0.1:0")?;
    for leaves in [true, false] {
        let how = Rest::Stream { leaves };
        let (end, spent) = reply_end(&rt, &listener, &backend, how).unwrap_or(NO_END);
        assert_eq!(rt; end, Err(PortFault));
        assert!(rt; spent < 2_000, "{leaves}: {spent} ms");
    }
    Ok(())
}

#[test]
fn another_reply_may_be_silent_for_the_stall_timeout(rt: HostRuntime) -> Result<(), Fail> {
    let listener = listen(&rt, SHORT)?;
    let backend = TcpListener::bind(&rt, "127.0.0.1:0")?;
    let (end, spent) = reply_end(&rt, &listener, &backend, Rest::Pieces).unwrap_or(NO_END);
    assert_eq!(rt; end, Err(PortFault));
    assert!(rt; spent >= 290 && spent < 2_000, "{spent} ms");
    Ok(())
}

// The same, but for a long time after the end.
const PATIENT: TcpLimits = TcpLimits {
    shutdown_timeout: 60_000,
    ..SHORT
};

fn kind_of(fault: &DialFault) -> Option<ErrorKind> {
    match fault.last_error() {
        Some(error) => Some(error.kind()),
        None => None,
    }
}

// How a link ends that posts after so much of a reply came.
fn posted_end<K: Link>(
    rt: &HostRuntime,
    link: &mut K,
    backend: &TcpListener,
    reply: &str,
) -> Option<End> {
    let _peer = peer_of(link, backend, reply)?;
    write_all(link, b"post").ok()?;
    read_out(rt, link).ok()
}

fn post_end(
    rt: &HostRuntime,
    dial: &mut TcpDial<'_, HostRuntime>,
    backend: &TcpListener,
    reply: &str,
) -> Option<End> {
    let to = address_of(backend.local_addr().ok()?);
    let Ok(mut link) = dial.dial(to, false) else {
        return None;
    };
    let end = posted_end(rt, &mut link, backend, reply);
    dial.done(link);
    end
}

// Whether a dial fails whose backend has ended.
fn is_refused(dial: &mut TcpDial<'_, HostRuntime>, backend: TcpListener) -> io::Result<bool> {
    let to = address_of(backend.local_addr()?);
    drop(backend);
    Ok(dial.dial(to, false).is_err())
}

#[test]
fn a_link_without_a_client_outlives_a_close_and_moves(rt: HostRuntime) -> Result<(), Fail> {
    let listener = listen(&rt, PATIENT)?;
    let backend = TcpListener::bind(&rt, "127.0.0.1:0")?;
    let nobody = ServedClient::new();
    let fault = DialFault::new();
    let mut dial = TcpDial::new(&rt, &listener, &nobody, &fault);
    assert_eq!(rt; kind_of(&fault), None);
    listener.close();
    for (reply, least) in [("HTTP/1.1 200", 240), (HEAD, 290)] {
        let (end, spent) = post_end(&rt, &mut dial, &backend, reply).unwrap_or(NO_END);
        assert_eq!(rt; end, Err(PortFault));
        assert!(rt; spent >= least, "{reply}: {spent} ms");
    }
    assert_eq!(rt; kind_of(&fault), Some(ErrorKind::TimedOut));
    assert!(rt; matches!(is_refused(&mut dial, backend), Ok(true)));
    assert_eq!(rt; kind_of(&fault), Some(ErrorKind::ConnectionRefused));
    Ok(())
}

pub(crate) fn dials(dial: &mut TcpDial<'_, HostRuntime>, to: Address) -> bool {
    match dial.dial(to, false) {
        Ok(link) => {
            dial.done(link);
            true
        }
        Err(_) => false,
    }
}

#[test]
fn nobody_dials_long_after_a_close(rt: HostRuntime) -> Result<(), Fail> {
    let listener = listen(&rt, SHORT)?;
    let backend = TcpListener::bind(&rt, "127.0.0.1:0")?;
    let to = address_of(backend.local_addr()?);
    let nobody = ServedClient::new();
    let fault = DialFault::new();
    let mut dial = TcpDial::new(&rt, &listener, &nobody, &fault);
    listener.close();
    assert!(rt; dials(&mut dial, to));
    thread::sleep(&rt, Duration::from_millis(400));
    assert!(rt; !dials(&mut dial, to));
    assert_eq!(rt; kind_of(&fault), Some(ErrorKind::TimedOut));
    let counts = listener.counts();
    assert_eq!(rt; [counts.dials, counts.dials_failed], [2, 1]);
    Ok(())
}

// Ends a head after the listener was closed, and is answered. How many bytes each read gave.
fn read_on<C: Conn>(
    client: &mut TcpStream,
    conn: &mut C,
    listener: &SharedListener,
) -> Option<[usize; 3]> {
    let mut buf = [0u8; 64];
    let before = conn.read(&mut buf).ok()?;
    listener.close();
    client.write_all(b"TP/1.1\r\n\r\n").ok()?;
    let after = conn.read(&mut buf).ok()?;
    write_all(conn, b"reply").ok()?;
    let last = conn.read(&mut buf).ok()?;
    Some([before, after, last])
}

// The same of the next connection of a door, whose client has sent the first half.
fn next_reads(
    rt: &HostRuntime,
    door: &mut TcpDoor<'_, HostRuntime>,
    listener: &SharedListener,
) -> Option<[usize; 3]> {
    let mut client = connect(rt, listener.address()).ok()?;
    client.write_all(b"GET / HT").ok()?;
    let Ok(Some(mut conn)) = door.next() else {
        return None;
    };
    let counts = read_on(&mut client, &mut conn, listener);
    door.done(conn);
    counts
}

#[test]
fn a_request_in_progress_outlives_a_close(rt: HostRuntime) -> Result<(), Fail> {
    let listener = listen(&rt, DEFAULT_LIMITS)?;
    let served = ServedClient::new();
    let mut door = TcpDoor::new(&rt, &listener, &served, 0);
    assert_eq!(rt; next_reads(&rt, &mut door, &listener), Some([8, 10, 0]));
    assert!(rt; matches!(door.next(), Ok(None)));
    Ok(())
}

// Answers what comes over each connection of a door, and how many these were.
fn serve<D: Door + Drop>(mut door: D) -> u64 {
    let mut served = 0u64;
    for _ in 0..10_000 {
        match door.next() {
            Ok(Some(mut conn)) => {
                answer(&mut conn);
                door.done(conn);
                served = served.saturating_add(1);
            }
            _ => break,
        }
    }
    served
}

fn answer<C: Conn>(conn: &mut C) {
    let mut buf = [0u8; 64];
    for _ in 0..100 {
        match conn.read(&mut buf) {
            Ok(count) if count > 0 => {
                if write_all(conn, b"reply").is_err() {
                    break;
                }
            }
            _ => break,
        }
    }
}

// A client asks once and ends its connection, or leaves it in the middle of a next request.
pub(crate) fn ask<R: Net<Stream = TcpStream>>(rt: &R, at: Address, text: &str) -> io::Result<()> {
    let mut client = connect(rt, at)?;
    client.write_all(text.as_bytes())?;
    client.read_exact(&mut [0u8; 5])
}

// Clients ask one after another, and an idle one stays. Then the listener is closed where that is due.
fn ask_all<R: Net<Stream = TcpStream>>(
    rt: &R,
    listener: &SharedListener,
    asks: u64,
    closes: bool,
) -> io::Result<()> {
    let idle = connect(rt, listener.address())?;
    for _ in 0..asks {
        ask(rt, listener.address(), "GET / HTTP/1.1\r\n\r\n")?;
    }
    ask(rt, listener.address(), "GET / HTTP/1.1\r\n\r\nGET / HT")?;
    if closes {
        listener.close();
    }
    drop(idle);
    Ok(())
}

// A bay, which gives as many connections as it may, or until the listener is closed.
pub(crate) fn serve_bay(rt: &HostRuntime, listener: &SharedListener, connections: u64) -> u64 {
    let client = ServedClient::new();
    serve(TcpDoor::new(rt, listener, &client, connections))
}

// Clients ask two bays until both end. How many connections were given, and after how many milliseconds that was.
fn round_of<T: Threads>(
    threads: &T,
    rt: &HostRuntime,
    listener: &SharedListener,
    connections: u64,
    asks: u64,
) -> Option<(u64, u64)> {
    let start = Instant::now(rt).ok()?;
    let (asked, (first, second)) = thread::join(
        threads,
        || ask_all(rt, listener, asks, connections == 0).is_ok(),
        || thread::join(
            threads,
            || serve_bay(rt, listener, connections),
            || serve_bay(rt, listener, connections),
        ),
    );
    let spent = millis_since(rt, &start).ok()?;
    asked.then_some((first.saturating_add(second), spent))
}

#[test]
fn no_bay_sleeps_through_an_end(rt: HostRuntime) -> Result<(), Fail> {
    for round in 0..400 {
        // By a close after some requests, and by the end of what the doors may give.
        let (connections, asks) = if round % 2 == 0 {
            (0, round % 8)
        } else {
            (2, 2)
        };
        let listener = listen(&rt, WAKEFUL)?;
        let (given, spent) = round_of(&rt, &rt, &listener, connections, asks).unwrap_or((
            0, MOST_ROUND,
        ));
        assert!(rt; given > asks, "round {round}");
        assert!(rt; spent < MOST_ROUND, "round {round}: {spent} ms");
    }
    Ok(())
}

// What a thread may own.
fn is_send<T: Send>(_value: &T) -> bool {
    true
}

fn are_ports_send(
    door: &mut TcpDoor<'_, HostRuntime>,
    dial: &mut TcpDial<'_, HostRuntime>,
    to: Address,
) -> bool {
    let Ok(link) = dial.dial(to, false) else {
        return false;
    };
    let Ok(Some(conn)) = door.next() else {
        return false;
    };
    is_send(door) && is_send(dial) && is_send(&conn) && is_send(&link)
}

#[test]
fn ports_move_to_threads(rt: HostRuntime) -> Result<(), Fail> {
    let listener = listen(&rt, SHORT)?;
    let client = ServedClient::new();
    let mut door = TcpDoor::new(&rt, &listener, &client, 0);
    let fault = DialFault::new();
    let mut dial = TcpDial::new(&rt, &listener, &client, &fault);
    assert!(rt; are_ports_send(&mut door, &mut dial, listener.address()));
    Ok(())
}

// The end of a server: until when a webhook is dialed, and how another server takes its port over.
use crate::common::{ANY_PORT, SHORT, address_of, connect, listen, read_out};
use crate::sockets::{ask, dials, serve_bay};
use front_base::Address;
use front_ports::{Conn, Door, PortFault};
use std::io::Write;
use std::net::TcpListener;
use std::test::Fail;
use std::thread::Threads;
use std::time::Duration;
use std::{io, thread};
use tcp_ports::{
    DEFAULT_LIMITS, DialFault, ServedClient, SharedListener, TcpDial, TcpDoor, TcpLimits,
};

// Longer than the shutdown timeout of `SHORT`, in milliseconds.
const LONG: u64 = 400;

// Whether a webhook is dialed while a stranger's half head holds a bay after a close, once that was cut, and long after it.
fn dialed_beside<C: Conn>(
    rt: &HostRuntime,
    dial: &mut TcpDial<'_, HostRuntime>,
    listener: &SharedListener,
    conn: &mut C,
    to: Address,
) -> io::Result<bool> {
    listener.close();
    let (before, _) = read_out(rt, conn)?;
    thread::sleep(rt, Duration::from_millis(LONG));
    let held = dials(dial, to);
    Ok(before == Err(PortFault) && held)
}

// The same of the next connection of a door, whose client has sent half a head.
fn dialed_at_end(
    rt: &HostRuntime,
    dial: &mut TcpDial<'_, HostRuntime>,
    door: &mut TcpDoor<'_, HostRuntime>,
    listener: &SharedListener,
    to: Address,
) -> io::Result<[bool; 3]> {
    let mut stranger = connect(rt, listener.address())?;
    stranger.write_all(b"GET / HT")?;
    let Ok(Some(mut conn)) = door.next() else {
        return Ok([false; 3]);
    };
    let held = dialed_beside(rt, dial, listener, &mut conn, to);
    drop(stranger);
    door.done(conn);
    let cut = dials(dial, to);
    thread::sleep(rt, Duration::from_millis(LONG));
    Ok([held?, cut, dials(dial, to)])
}

// A head may take longer than the end.
const PATIENT: TcpLimits = TcpLimits {
    read_header_timeout: 60_000,
    ..SHORT
};

fn dials_beside_a_stranger(rt: &HostRuntime, listener: &SharedListener) -> io::Result<[bool; 3]> {
    let webhook = TcpListener::bind(rt, "127.0.0.1:0")?;
    let to = address_of(webhook.local_addr()?);
    let (served, nobody) = (ServedClient::new(), ServedClient::new());
    let mut door = TcpDoor::new(rt, listener, &served, 0);
    let fault = DialFault::new();
    let mut dial = TcpDial::new(rt, listener, &nobody, &fault);
    dialed_at_end(rt, &mut dial, &mut door, listener, to)
}

#[test]
fn a_stranger_holds_up_no_lines_that_wait(rt: HostRuntime) -> Result<(), Fail> {
    let listener = listen(&rt, PATIENT)?;
    let dialed = dials_beside_a_stranger(&rt, &listener).unwrap_or([false; 3]);
    assert_eq!(rt; dialed, [true, true, false]);
    Ok(())
}

// How many of many clients in turn are not answered.
fn unanswered(rt: &HostRuntime, at: Address, asks: u64) -> u64 {
    let mut count = 0u64;
    for _ in 0..asks {
        if ask(rt, at, "GET / HTTP/1.1\r\n\r\n").is_err() {
            count = count.saturating_add(1);
        }
    }
    count
}

// Asks two listeners of one port, of which the first closes meanwhile. How many clients are not answered.
fn ask_both<T: Threads + Sync>(
    threads: &T,
    rt: &HostRuntime,
    first: &SharedListener,
    second: &SharedListener,
) -> u64 {
    let at = first.address();
    let (early, late) = thread::join(
        threads,
        || unanswered(rt, at, 400),
        || {
            thread::sleep(rt, Duration::from_millis(20));
            first.close();
            unanswered(rt, at, 100)
        },
    );
    second.close();
    early.saturating_add(late)
}

// How many clients were not answered, and how many each listener served.
fn served_by_both<T: Threads + Sync>(
    threads: &T,
    rt: &HostRuntime,
    first: &SharedListener,
    second: &SharedListener,
) -> [u64; 3] {
    let (lost, (before, after)) = thread::join(
        threads,
        || ask_both(threads, rt, first, second),
        || thread::join(
            threads,
            || serve_bay(rt, first, 0),
            || serve_bay(rt, second, 0),
        ),
    );
    [lost, before, after]
}

fn hands_over<T: Threads + Sync>(
    threads: &T,
    rt: &HostRuntime,
    first: &SharedListener,
) -> io::Result<[u64; 3]> {
    first.open()?;
    let second = SharedListener::bind(rt, rt.alloc(), first.address(), DEFAULT_LIMITS, true)?;
    second.open()?;
    Ok(served_by_both(threads, rt, first, &second))
}

#[test]
fn a_port_is_handed_over_without_a_loss(rt: HostRuntime) -> Result<(), Fail> {
    let first = SharedListener::bind(&rt, rt.alloc(), ANY_PORT, DEFAULT_LIMITS, true)?;
    let [lost, before, after] = hands_over(&rt, &rt, &first).unwrap_or([0; 3]);
    assert_eq!(rt; lost, 0);
    assert_eq!(rt; before.saturating_add(after), 500);
    assert!(rt; after >= 100);
    Ok(())
}

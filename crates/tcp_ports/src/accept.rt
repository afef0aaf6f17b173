use crate::conn::TcpConn;
use crate::held_conns::MOST_HELD;
use crate::listener::{SharedListener, address_of};
use crate::poll::{MOST_TURNS, is_passing};
use crate::port_counts::is_short_of_files;
use std::io::ErrorKind;
use std::time::Duration;
use std::{io, rt, thread};

// How long an accept that failed for want of descriptors or memory rests, in milliseconds.
const REST: u64 = 20;

// Whether the listening socket itself is of no use any more.
fn is_broken(error: &io::Error) -> bool {
    match error.raw_os_error() {
        Some(libc::EBADF | libc::EINVAL | libc::ENOTSOCK) => true,
        _ => false,
    }
}

// A connection that was accepted for a door. One whose client has gone is left out.
fn held_conn<'b, R: rt::Clock>(rt: &'b R, listener: &'b SharedListener) -> Option<TcpConn<'b, R>> {
    for _ in 0..MOST_HELD {
        let stream = listener.held_conn()?;
        if let Ok(from) = stream.peer_addr() {
            if let Ok(conn) = TcpConn::new(rt, listener, stream, address_of(from).ip) {
                return Some(conn);
            }
        }
    }
    None
}

/// The next connection once the listener is open, or none once it has ended. An accept that fails for one connection, or for want of
/// descriptors, is made again. Want of descriptors is counted once a call.
pub(crate) fn next_conn<'b, R: rt::Clock>(
    rt: &'b R,
    listener: &'b SharedListener,
) -> io::Result<Option<TcpConn<'b, R>>> {
    listener.wait_until_open(rt);
    let mut was_short = false;
    for _ in 0..MOST_TURNS {
        listener.is_seen_closed(rt);
        // In this order nothing is held later than it is looked for.
        let ended = listener.is_ended();
        let held = held_conn(rt, listener);
        if held.is_some() || ended {
            return Ok(held);
        }
        match listener.accept() {
            Ok((stream, from)) => {
                if let Ok(conn) = TcpConn::new(rt, listener, stream, address_of(from).ip) {
                    return Ok(Some(conn));
                }
            }
            Err(_) if listener.is_ended() => {}
            Err(error) if is_passing(&error) || error.kind() == ErrorKind::ConnectionAborted => {}
            Err(error) if is_broken(&error) && !listener.is_closed() => return Err(error),
            Err(error) => {
                if is_short_of_files(&error) && !was_short {
                    listener.counters().was_short_of_files();
                    was_short = true;
                }
                thread::sleep(rt, Duration::from_millis(REST));
            }
        }
    }
    Err(io::Error::from(ErrorKind::TimedOut))
}

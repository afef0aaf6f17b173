// Waiting for sockets by the system's `poll`.
ghost use Rattle.std.specs.Prelude.{◌≤◌, IfOk, IfSome, length};

use libc::net;
use libc::types::pollfd;
use std::io;
use std::io::{ErrorKind, Read};
use std::net::TcpStream;
use std::os::fd::RawFd;

/// How many turns a loop of waits has. No run takes so many.
pub(crate) const MOST_TURNS: u64 = 1 << 40;

/// No socket: no wait is ended by it.
pub(crate) const NO_SOCKET: RawFd = -1;

/// Something to read or to accept, or an end.
pub(crate) const INPUT: i16 = net::POLLIN;

/// Room for something to write, or an end.
pub(crate) const OUTPUT: i16 = net::POLLOUT;

/// The peer has ended its side.
pub(crate) const PEER_END: i16 = net::POLLRDHUP;

/// The socket was shut down or broke, which each wait reports.
pub(crate) const BREAK: i16 = 0;

fn asked(fd: RawFd, events: i16) -> pollfd {
    pollfd {
        fd,
        events,
        revents: 0,
    }
}

fn poll_millis(millis: u64) -> i32 {
    i32::try_from(millis).unwrap_or(i32::MAX)
}

/// Whether the event comes within so many milliseconds. A signal may end the wait early.
pub(crate) fn wait_for(fd: RawFd, events: i16, millis: u64) -> bool {
    let mut asked = [asked(fd, events)];
    net::poll(&mut asked, poll_millis(millis)) > 0
}

/// Which of three events come first within so many milliseconds. A signal may end the wait early.
pub(crate) fn wait_for_any(events: [(RawFd, i16); 3], millis: u64) -> [bool; 3] {
    let [first, second, third] = events;
    let mut asked = [
        asked(first.0, first.1),
        asked(second.0, second.1),
        asked(third.0, third.1),
    ];
    if net::poll(&mut asked, poll_millis(millis)) > 0 {
        [
            asked[0].revents != 0,
            asked[1].revents != 0,
            asked[2].revents != 0,
        ]
    } else {
        [false; 3]
    }
}

/// Whether an error of a socket says only that its timeout passed, or that a signal came.
pub(crate) fn is_passing(error: &io::Error) -> bool {
    match error.kind() {
        ErrorKind::WouldBlock | ErrorKind::Interrupted => true,
        _ => false,
    }
}

/// Reads for as long as the timeout of the socket, `None` where nothing came.
pub(crate) fn read_some(stream: &mut TcpStream, buf: &mut [u8]) -> io::Result<Option<usize>>
    ensures { IfOk result (λ read. IfSome read (λ n. n ≤ length buf.new)) }
{
    match stream.read(buf) {
        Ok(count) => Ok(Some(count)),
        Err(error) if is_passing(&error) => Ok(None),
        Err(error) => Err(error),
    }
}

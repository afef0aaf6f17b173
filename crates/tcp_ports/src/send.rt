ghost use Rattle.std.specs.Prelude.{◌≤◌, IfOk, IfSome, length};
ghost use Rattle.std.specs.Io.{WritesAtMost};

use crate::clock::millis_now;
use crate::listener::SharedListener;
use crate::poll::{MOST_TURNS, is_passing};
use crate::rate::RateFloor;
use std::io::{ErrorKind, Write};
use std::net::TcpStream;
use std::{io, rt};

/// Sends the first bytes of a piece, which are no copy of it. A peer that takes bytes too slowly is an error, and so is a
/// send on behalf of a client once the listener was closed for long.
pub(crate) fn send_some(
    rt: &impl rt::Clock,
    listener: &SharedListener,
    has_client: bool,
    stream: &mut TcpStream,
    floor: &mut RateFloor,
    piece: &[u8],
) -> io::Result<usize>
    ensures { WritesAtMost result piece.now }
{
    let limits = listener.limits();
    for _ in 0..MOST_TURNS {
        let start = millis_now(rt);
        let sent = send_once(stream, piece)?;
        let waited = millis_now(rt).saturating_sub(start);
        let count = sent.unwrap_or(0) as u64;
        let behind = floor.falls_behind(count, waited, limits.min_rate, limits.stall_timeout);
        if behind || has_client && listener.is_past_shutdown(rt) {
            break;
        }
        if let Some(count) = sent {
            return Ok(count);
        }
    }
    Err(io::Error::from(ErrorKind::TimedOut))
}

// Sends for as long as the timeout of the socket, `None` where nothing was taken.
fn send_once(stream: &mut TcpStream, piece: &[u8]) -> io::Result<Option<usize>>
    ensures { IfOk result (λ sent. IfSome sent (λ n. n ≤ length piece.now)) }
{
    match stream.write(piece) {
        Ok(count) => Ok(Some(count)),
        Err(error) if is_passing(&error) => Ok(None),
        Err(error) => Err(error),
    }
}

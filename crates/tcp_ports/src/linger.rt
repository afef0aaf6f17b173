use crate::clock::millis_now;
use crate::limits::TcpLimits;
use crate::poll::{INPUT, MOST_TURNS, is_passing, wait_for};
use std::io::Read;
use std::net::{Shutdown, TcpStream};
use std::os::fd::AsRawFd;
use std::rt;

/// Ends a connection so that its last reply reaches a client that is still sending: a socket that is closed with input
/// left unread resets the connection, and the client may then lose the reply (RFC 9112, section 9.6).
pub(crate) fn linger(rt: &impl rt::Clock, limits: &TcpLimits, stream: &TcpStream) {
    if stream.shutdown(Shutdown::Write).is_err() {
        return;
    }
    let start = millis_now(rt);
    let mut dropped = 0u64;
    let mut buf = [0u8; 16384];
    for _ in 0..MOST_TURNS {
        let spent = millis_now(rt).saturating_sub(start);
        if spent >= limits.linger_timeout || dropped >= limits.linger_bytes {
            return;
        }
        let mut reader = stream;
        // A read waits for a moment itself, which is enough for a client that ends its side at once.
        match reader.read(&mut buf) {
            Ok(count) if count > 0 => dropped = dropped.saturating_add(count as u64),
            Err(error) if is_passing(&error) => {
                if !wait_for(stream.as_raw_fd(), INPUT, limits.linger_timeout - spent) {
                    return;
                }
            }
            _ => return,
        }
    }
}

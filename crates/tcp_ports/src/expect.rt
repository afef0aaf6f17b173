use crate::listener::SharedListener;
use crate::poll::{INPUT, wait_for};
use crate::rate::RateFloor;
use crate::send::send_some;
use std::io::ErrorKind;
use std::net::TcpStream;
use std::os::fd::AsRawFd;
use std::{io, rt};

const CONTINUE: &[u8] = b"HTTP/1.1 100 Continue\r\n\r\n";

/// Sends the interim reply that a client awaits before it sends a body (RFC 9110, sections 10.1.1 and 15.2.1), unless bytes of
/// the body are there already.
pub(crate) fn answer_expect(
    rt: &impl rt::Clock,
    listener: &SharedListener,
    stream: &mut TcpStream,
    sending: &mut RateFloor,
) -> io::Result<()> {
    if wait_for(stream.as_raw_fd(), INPUT, 0) {
        return Ok(());
    }
    let mut rest = CONTINUE;
    // Each turn sends one byte at least.
    for _ in 0..CONTINUE.len() {
        let sent = send_some(rt, listener, true, stream, sending, rest)?;
        if rest.len() <= sent {
            return Ok(());
        }
        rest = &rest[sent..];
    }
    Err(io::Error::from(ErrorKind::WriteZero))
}

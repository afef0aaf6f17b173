ghost use Rattle.std.specs.Prelude.{◌≡◌, ◌++◌, replicate};
ghost use Rattle.std.specs.Int.{w16, to_le_bytes, to_be_bytes};

use crate::clock::{millis_now, timeout_of};
use crate::limits::TcpLimits;
use crate::poll::{MOST_TURNS, OUTPUT, wait_for};
use front_base::Address;
use libc::net;
use os::FromRawFd;
use std::io::ErrorKind;
use std::net::{Net, TcpStream};
use std::os::fd::AsRawFd;
use std::{io, rt};

// How many bytes an IPv4 socket's address has.
pub(crate) const ADDRESS_BYTES: u32 = 16;

// The address as the system takes it, in its `sockaddr_in`.
pub(crate) fn system_address(to: Address) -> [u8; net::_SS_SIZE]
    ensures { result ≡ to_le_bytes w16 2 ++ (to_be_bytes w16 to.port ++ (to.ip ++ replicate 120 0)) }
{
    let mut raw = [0u8; net::_SS_SIZE];
    raw[..2].copy_from_slice(&(net::AF_INET as u16).to_ne_bytes());
    raw[2..4].copy_from_slice(&to.port.to_be_bytes());
    raw[4..8].copy_from_slice(&to.ip);
    raw
}

pub(crate) fn new_socket() -> io::Result<TcpStream> {
    let fd = unsafe { net::socket(net::AF_INET, net::SOCK_STREAM | net::SOCK_CLOEXEC, 0) };
    if fd < 0 {
        return Err(io::Error::from_raw_os_error(os::errno()));
    }
    Ok(unsafe { TcpStream::from_raw_fd(fd) })
}

// Waits for a connect that goes on in the system, until so many milliseconds after its start.
fn finish_connect(
    rt: &impl rt::Clock,
    stream: &TcpStream,
    start: u64,
    most: u64,
) -> io::Result<()> {
    for _ in 0..MOST_TURNS {
        let spent = millis_now(rt).saturating_sub(start);
        if spent >= most {
            break;
        }
        if wait_for(stream.as_raw_fd(), OUTPUT, most - spent) {
            return match stream.take_error()? {
                Some(error) => Err(error),
                None => Ok(()),
            };
        }
    }
    Err(io::Error::from(ErrorKind::TimedOut))
}

// Connects within so many milliseconds. The system waits itself, for as long as a write of that stream may last.
fn connect(rt: &impl rt::Clock, stream: &TcpStream, to: Address, most: u64) -> io::Result<()> {
    let start = millis_now(rt);
    let raw = system_address(to);
    if unsafe { net::connect(stream.as_raw_fd(), &raw, ADDRESS_BYTES) } == 0 {
        return Ok(());
    }
    match os::errno() {
        libc::EINPROGRESS | libc::EINTR => finish_connect(rt, stream, start, most),
        error => Err(io::Error::from_raw_os_error(error)),
    }
}

/// Opens a stream to a backend within `dial_timeout`. No read and no write of it lasts for longer than `wake_interval`.
pub(crate) fn open_stream<R: Net<Stream = TcpStream> + rt::Clock>(
    rt: &R,
    limits: &TcpLimits,
    to: Address,
) -> io::Result<TcpStream> {
    let stream = new_socket()?;
    let first = limits.wake_interval.min(limits.dial_timeout);
    stream.set_write_timeout(Some(timeout_of(first)))?;
    connect(rt, &stream, to, limits.dial_timeout.max(1))?;
    if first < limits.wake_interval {
        stream.set_write_timeout(Some(timeout_of(limits.wake_interval)))?;
    }
    stream.set_read_timeout(Some(timeout_of(limits.wake_interval)))?;
    Ok(stream)
}

// A socket of an address, by which connections are accepted once it listens.
use crate::keep_alive::value_of;
use crate::open::{ADDRESS_BYTES, new_socket, system_address};
use front_base::Address;
use libc::net;
use std::io;
use std::net::TcpListener;
use std::os::fd::{AsRawFd, OwnedFd, RawFd};

fn checked(status: i32) -> io::Result<()> {
    if status < 0 {
        return Err(io::Error::from_raw_os_error(os::errno()));
    }
    Ok(())
}

// Connections of an earlier process that the system still remembers don't keep the address from it.
fn set_reuse(fd: RawFd, shares_port: bool) -> io::Result<()> {
    let on = value_of(1);
    checked(unsafe { net::setsockopt(fd, net::SOL_SOCKET, net::SO_REUSEADDR, &on, 4) })?;
    if shares_port {
        checked(unsafe { net::setsockopt(fd, net::SOL_SOCKET, net::SO_REUSEPORT, &on, 4) })?;
    }
    Ok(())
}

/// A socket of this address, where port 0 is one that the system picks. The system refuses clients there until it listens.
pub(crate) fn bound_socket(at: Address, shares_port: bool) -> io::Result<TcpListener> {
    let socket = TcpListener::from(OwnedFd::from(new_socket()?));
    set_reuse(socket.as_raw_fd(), shares_port)?;
    let raw = system_address(at);
    checked(unsafe { net::bind(socket.as_raw_fd(), &raw, ADDRESS_BYTES) })?;
    Ok(socket)
}

/// Has the system take clients for a socket, of which about so many wait to be accepted.
pub(crate) fn listens(socket: &TcpListener, most: i32) -> io::Result<()> {
    checked(net::listen(socket.as_raw_fd(), most))
}

use crate::poll::NO_SOCKET;
use os::FromRawFd;
use std::alloc::{AllocError, Global};
use std::net::TcpStream;
use std::os::fd::{IntoRawFd, RawFd};
use std::sync::atomic::{AtomicI32, Ordering};

/// How many connections are held at most: more than wait in the system's queue.
pub(crate) const MOST_HELD: u64 = 256;

/// Connections that were accepted for doors which had no time for them yet.
#[derive(Drop)]
pub(crate) struct HeldConns {
    // The socket of a connection, or none, in each place.
    places: Vec<AtomicI32>,
}

// The stream of a socket that nobody else has, none where there is no socket.
fn stream_of(socket: RawFd) -> Option<TcpStream> {
    if socket < 0 {
        return None;
    }
    Some(unsafe { TcpStream::from_raw_fd(socket) })
}

impl HeldConns {
    pub(crate) fn new(alloc: Global) -> Result<HeldConns, AllocError> {
        let mut places = Vec::new(alloc);
        for _ in 0..MOST_HELD {
            places.push(AtomicI32::new(NO_SOCKET))?;
        }
        Ok(HeldConns { places })
    }

    /// Holds a connection, or closes it where all places are taken.
    pub(crate) fn hold(&self, stream: TcpStream) {
        let socket = stream.into_raw_fd();
        for place in self.places.iter() {
            let held = place.compare_exchange(
                NO_SOCKET,
                socket,
                Ordering::SeqCst,
                Ordering::SeqCst,
            );
            if held.is_ok() {
                return;
            }
        }
        let _unheld = stream_of(socket);
    }

    /// A connection that is held, for its door.
    pub(crate) fn take(&self) -> Option<TcpStream> {
        for place in self.places.iter() {
            let stream = stream_of(place.swap(NO_SOCKET, Ordering::SeqCst));
            if stream.is_some() {
                return stream;
            }
        }
        None
    }
}

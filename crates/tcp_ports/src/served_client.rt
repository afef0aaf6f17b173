use crate::poll::NO_SOCKET;
use std::os::fd::RawFd;
use std::sync::atomic::{AtomicI32, Ordering};

/// What the door and the dial of one bay share: the client that is being served, so that a link can end with it. That of a
/// dial without a door stays without a client.
#[derive(Drop)]
pub struct ServedClient {
    socket: AtomicI32,
}

impl ServedClient {
    pub fn new() -> ServedClient {
        ServedClient {
            socket: AtomicI32::new(NO_SOCKET),
        }
    }

    pub(crate) fn socket(&self) -> RawFd {
        self.socket.load(Ordering::SeqCst)
    }

    pub(crate) fn set(&self, socket: RawFd) {
        self.socket.store(socket, Ordering::SeqCst);
    }

    pub(crate) fn clear(&self) {
        self.set(NO_SOCKET);
    }
}

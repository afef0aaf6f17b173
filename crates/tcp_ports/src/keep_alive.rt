use libc::net;
use std::os::fd::RawFd;

// The values of Go's net package: a peer is asked after so many seconds of silence, again after so many more, and has gone
// once so many asks were not answered.
const IDLE: i32 = 15;

const INTERVAL: i32 = 15;

const COUNT: i32 = 9;

pub(crate) fn value_of(number: i32) -> [u8; 16] {
    let mut value = [0u8; 16];
    value[..4].copy_from_slice(&number.to_ne_bytes());
    value
}

/// Has the system find out that a silent peer's machine has gone, which its socket then reports as an end. An option that
/// the system refuses stays as it was.
pub(crate) fn keep_alive(fd: RawFd) {
    let tcp = net::IPPROTO_TCP;
    unsafe {
        net::setsockopt(fd, net::SOL_SOCKET, net::SO_KEEPALIVE, &value_of(1), 4);
        net::setsockopt(fd, tcp, net::TCP_KEEPIDLE, &value_of(IDLE), 4);
        net::setsockopt(fd, tcp, net::TCP_KEEPINTVL, &value_of(INTERVAL), 4);
        net::setsockopt(fd, tcp, net::TCP_KEEPCNT, &value_of(COUNT), 4);
    }
}

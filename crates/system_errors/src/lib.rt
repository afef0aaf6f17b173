//! Why a call of the system failed, in the words that Unix tools use.
//!
//! Nothing is promised of which error the system gives.
#![tactic(auto)]

use std::io;
use std::io::ErrorKind;

// Numbers of Linux that `libc` has no names for.
const ENXIO: i32 = 6;

const ENETUNREACH: i32 = 101;

const EHOSTUNREACH: i32 = 113;

const EDQUOT: i32 = 122;

// By the error's own number, where it is one that files give.
fn file_reason(number: i32) -> Option<&'static str> {
    match number {
        libc::EPERM => Some("operation not permitted"),
        libc::ENOENT => Some("no such file or directory"),
        libc::EIO => Some("input/output error"),
        libc::EACCES => Some("permission denied"),
        libc::ENOTDIR => Some("not a directory"),
        libc::EISDIR => Some("is a directory"),
        libc::EINVAL => Some("invalid argument"),
        libc::EMFILE => Some("too many open files"),
        libc::EFBIG => Some("file too large"),
        libc::ENOSPC => Some("no space left on device"),
        libc::EROFS => Some("read-only file system"),
        libc::EPIPE => Some("broken pipe"),
        libc::ENAMETOOLONG => Some("file name too long"),
        libc::ELOOP => Some("too many symbolic links"),
        ENXIO => Some("no reader at the other end"),
        EDQUOT => Some("disk quota exceeded"),
        _ => None,
    }
}

// By the error's own number, where it is one that sockets and memory give.
fn socket_reason(number: i32) -> Option<&'static str> {
    match number {
        libc::EADDRINUSE => Some("address already in use"),
        libc::EADDRNOTAVAIL => Some("not an address of this machine"),
        libc::ECONNABORTED => Some("connection aborted"),
        libc::ECONNRESET => Some("connection reset by peer"),
        libc::ECONNREFUSED => Some("connection refused"),
        libc::ETIMEDOUT => Some("timed out"),
        libc::ENOMEM => Some("out of memory"),
        ENETUNREACH => Some("network is unreachable"),
        EHOSTUNREACH => Some("no route to host"),
        _ => None,
    }
}

fn kind_reason(kind: ErrorKind) -> &'static str {
    match kind {
        ErrorKind::NotFound => "no such file or directory",
        ErrorKind::PermissionDenied => "permission denied",
        ErrorKind::AddrInUse => "address already in use",
        ErrorKind::ConnectionRefused => "connection refused",
        ErrorKind::ConnectionReset => "connection reset by peer",
        ErrorKind::BrokenPipe => "broken pipe",
        ErrorKind::TimedOut | ErrorKind::WouldBlock => "timed out",
        ErrorKind::WriteZero => "nothing was written",
        ErrorKind::UnexpectedEof => "cut short",
        ErrorKind::OutOfMemory => "out of memory",
        _ => "failed",
    }
}

/// The system's reason for an error of this number, where one is known.
pub fn reason_of_number(number: i32) -> Option<&'static str> {
    match file_reason(number) {
        Some(reason) => Some(reason),
        None => socket_reason(number),
    }
}

/// The system's number of an error. One that a limit made is the system's of a timeout, and any other without a number is that
/// of an input or output error.
pub fn number_of(error: &io::Error) -> i32 {
    match error.raw_os_error() {
        Some(number) => number,
        None => match error.kind() {
            ErrorKind::TimedOut => libc::ETIMEDOUT,
            ErrorKind::OutOfMemory => libc::ENOMEM,
            ErrorKind::BrokenPipe => libc::EPIPE,
            _ => libc::EIO,
        },
    }
}

/// The system's reason.
pub fn reason_of(error: &io::Error) -> &'static str {
    let known = match error.raw_os_error() {
        Some(number) => reason_of_number(number),
        None => None,
    };
    match known {
        Some(reason) => reason,
        None => kind_reason(error.kind()),
    }
}

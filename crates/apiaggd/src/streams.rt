// The standard streams of a process that was started without them.
use std::fs::{File, OpenOptions};
use std::os::fd::AsRawFd;
use std::{io, rt};

const STANDARD_STREAMS: i32 = 3;

/// Files that stand in the place of standard streams which were closed, for as long as they are held.
#[derive(Drop)]
pub struct HeldStreams {
    held: [Option<File>; 3],
}

fn open_null<R: rt::Files<File = File>>(rt: &R) -> io::Result<File> {
    OpenOptions::new()
        .read(true)
        .write(true)
        .open(rt, "/dev/null")
}

/// Opens `/dev/null` for each standard stream that is closed: a file takes the least descriptor that is free, and so no audit log
/// gets what is said on standard error.
pub fn hold_streams<R: rt::Files<File = File>>(rt: &R) -> HeldStreams {
    let mut streams = HeldStreams {
        held: [None, None, None],
    };
    for place in streams.held.iter_mut() {
        match open_null(rt) {
            Ok(file) if file.as_raw_fd() < STANDARD_STREAMS => *place = Some(file),
            _ => break,
        }
    }
    streams
}

// What a log is written to.
ghost use Rattle.std.specs.Prelude.{◌≤◌, IfOk, length};

use libc::net;
use libc::types::pollfd;
use std::fs::{File, Metadata, OpenOptions};
use std::io::{Print, Read, Seek, SeekFrom, Write};
use std::os::fd::{AsRawFd, RawFd};
use std::os::unix::fs::{FileTypeExt, MetadataExt, OpenOptionsExt};
use std::{fs, io, rt};

/// How long a pipe may take no byte, in milliseconds.
const PIPE_MILLIS: i32 = 1000;

// A pipe that takes a byte takes so many without a wait (POSIX, `PIPE_BUF`).
const PIPE_BYTES: usize = 4096;

const STANDARD_OUTPUT: RawFd = 1;

// Its owner alone may read a log and write to it.
const LOG_MODE: u32 = 0o600;

#[derive(Drop)]
pub(crate) enum LogTarget {
    Output,
    // A standard output that is a pipe or a socket, which may have a reader that stopped.
    PipedOutput,
    File(File),
    // Opened without waiting.
    Fifo(File),
}

/// Which file it is: its device, and its number there.
#[derive(Clone, Copy, Debug, Drop, PartialEq, Eq)]
pub(crate) struct FileId {
    device: u64,
    number: u64,
}

fn id_of(known: &Metadata) -> FileId {
    FileId {
        device: known.dev(),
        number: known.ino(),
    }
}

/// The file that this path names, where there is one.
pub(crate) fn named_by<R: rt::Files<File = File>>(rt: &R, path: &str) -> Option<FileId> {
    match fs::metadata(rt, path) {
        Ok(known) => Some(id_of(&known)),
        Err(_) => None,
    }
}

// Whether the file has bytes, and the last one of them ends no line, as far as it may be read.
fn ends_in_line<R: rt::Files<File = File>>(rt: &R, path: &str) -> io::Result<bool> {
    let mut file = fs::open(rt, path)?;
    file.seek(SeekFrom::End(-1))?;
    let mut last = [0u8; 1];
    let count = file.read(&mut last)?;
    Ok(count == 1 && last != *b"\n")
}

// Whether what stands in the file ends within a line. Of one that can't be read it is not known, and taken to be so.
fn is_cut<R: rt::Files<File = File>>(rt: &R, path: &str, file: &File) -> bool {
    match file.metadata() {
        Ok(known) if known.is_file() && known.len() > 0 => ends_in_line(rt, path).unwrap_or(true),
        _ => false,
    }
}

fn is_fifo<R: rt::Files<File = File>>(rt: &R, path: &str) -> bool {
    match fs::metadata(rt, path) {
        Ok(known) => known.file_type().is_fifo(),
        Err(_) => false,
    }
}

// The standard output, which is asked before each write where it is a pipe or a socket.
fn output<R: rt::Files<File = File>>(rt: &R) -> LogTarget {
    match fs::metadata(rt, "/proc/self/fd/1") {
        Ok(known) if known.file_type().is_fifo() || known.file_type().is_socket() => {
            LogTarget::PipedOutput
        }
        _ => LogTarget::Output,
    }
}

// A FIFO that is open for reading too has a reader, so that opening it waits for nobody.
fn open_fifo<R: rt::Files<File = File>>(rt: &R, path: &str) -> io::Result<LogTarget> {
    let file = OpenOptions::new().read(true).write(true).open(rt, path)?;
    os::set_nonblocking(file.as_raw_fd(), true);
    Ok(LogTarget::Fifo(file))
}

fn open_file<R: rt::Files<File = File>>(rt: &R, path: &str) -> io::Result<File> {
    let mut options = OpenOptions::new();
    options.append(true).create(true);
    options.mode(LOG_MODE);
    options.open(rt, path)
}

// Waits until a byte more may be written to it, for so many milliseconds at most.
fn wait_for_room(fd: RawFd, millis: i32) -> io::Result<()> {
    let mut asked = [pollfd {
        fd,
        events: net::POLLOUT,
        revents: 0,
    }];
    if net::poll(&mut asked, millis) > 0 {
        return Ok(());
    }
    Err(io::Error::from(io::ErrorKind::TimedOut))
}

impl LogTarget {
    /// What this path names, where `-` stands for the standard output, and whether it ends within a line. A file is made where
    /// there is none, for its owner alone.
    pub(crate) fn open<R: rt::Files<File = File>>(
        rt: &R,
        path: &str,
    ) -> io::Result<(LogTarget, bool)> {
        if path == "-" {
            return Ok((output(rt), false));
        }
        if is_fifo(rt, path) {
            return Ok((open_fifo(rt, path)?, false));
        }
        let file = open_file(rt, path)?;
        let cut = is_cut(rt, path, &file);
        Ok((LogTarget::File(file), cut))
    }

    /// Which file it is. Of the standard output nobody asks.
    pub(crate) fn id(&self) -> Option<FileId> {
        match self {
            LogTarget::Output | LogTarget::PipedOutput => None,
            LogTarget::File(file) | LogTarget::Fifo(file) => match file.metadata() {
                Ok(known) => Some(id_of(&known)),
                Err(_) => None,
            },
        }
    }

    // Writes the first bytes of a piece.
    fn write_to<R: Print>(&mut self, rt: &R, piece: &[u8], millis: i32) -> io::Result<usize>
        ensures { IfOk result (λ n. n ≤ length piece.now) }
    {
        match self {
            LogTarget::Output => rt.write_some(piece),
            LogTarget::PipedOutput => {
                wait_for_room(STANDARD_OUTPUT, millis)?;
                let count = piece.len().min(PIPE_BYTES);
                rt.write_some(&piece[..count])
            }
            LogTarget::File(file) => file.write(piece),
            LogTarget::Fifo(file) => {
                wait_for_room(file.as_raw_fd(), millis)?;
                file.write(piece)
            }
        }
    }

    /// Writes the first bytes of a piece, one at least. A pipe has a second to take one, and no time where it is known to be stuck.
    pub(crate) fn write_some<R: Print>(
        &mut self,
        rt: &R,
        piece: &[u8],
        is_stuck: bool,
    ) -> io::Result<usize>
        ensures { IfOk result (λ n. n ≤ length piece.now) }
    {
        let millis = if is_stuck { 0 } else { PIPE_MILLIS };
        let count = self.write_to(rt, piece, millis)?;
        if count == 0 {
            return Err(io::Error::from(io::ErrorKind::WriteZero));
        }
        Ok(count)
    }
}

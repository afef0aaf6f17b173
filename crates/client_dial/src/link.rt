ghost use Rattle.std.specs.Prelude.{◌≡◌, ◌<◌, ◌+◌, ◌↔◌, IsTrue, None, IfOk, length, refl};
ghost use Rattle.std.specs.Io.{ReadsAtMost, WritesAtMost};
ghost use Rattle.std.specs.Io.KnownBytes.{ReadConsumes, WriteAppends};
ghost use Rattle.front_ports.specs.Cause.{HasCause};
ghost use Rattle.client_dial.specs.Counts.{link_input, link_output, link_read_faults, link_write_faults};

use crate::clock::rest_until;
use crate::last_error::LastError;
use front_ports::{ByteSink, Link, PortFault, Source};
use std::io::{ErrorKind, Read, Write};
use std::net::TcpStream;
use std::{io, rt};

// How many turns a loop of calls has that signals end. No run takes so many.
const MOST_TURNS: u64 = 1 << 40;

/// A link for one call, on which nothing is read or written after the call's last moment.
#[derive(Drop)]
pub struct ClientLink<'b, R> {
    rt: &'b R,
    last: &'b LastError,
    stream: TcpStream,
    // The moment from which on nothing is read or written, in milliseconds.
    until: u64,
    read_faults: u64,
    write_faults: u64,
}

// Reads what comes, until this moment at most.
fn read_some(
    rt: &impl rt::Clock,
    stream: &mut TcpStream,
    until: u64,
    buf: &mut [u8],
) -> io::Result<usize>
    ensures { ReadsAtMost result buf.new }
{
    for _ in 0..MOST_TURNS {
        let Some(rest) = rest_until(rt, until) else {
            break;
        };
        stream.set_read_timeout(Some(rest))?;
        match stream.read(buf) {
            Ok(count) => return Ok(count),
            Err(error) if error.kind() == ErrorKind::Interrupted => {}
            Err(error) if error.kind() == ErrorKind::WouldBlock => break,
            Err(error) => return Err(error),
        }
    }
    Err(io::Error::from(ErrorKind::TimedOut))
}

// Writes what is taken, until this moment at most.
fn write_some(
    rt: &impl rt::Clock,
    stream: &mut TcpStream,
    until: u64,
    piece: &[u8],
) -> io::Result<usize>
    ensures { WritesAtMost result piece.now }
{
    for _ in 0..MOST_TURNS {
        let Some(rest) = rest_until(rt, until) else {
            break;
        };
        stream.set_write_timeout(Some(rest))?;
        match stream.write(piece) {
            Ok(count) => return Ok(count),
            Err(error) if error.kind() == ErrorKind::Interrupted => {}
            Err(error) if error.kind() == ErrorKind::WouldBlock => break,
            Err(error) => return Err(error),
        }
    }
    Err(io::Error::from(ErrorKind::TimedOut))
}

impl<'b, R: rt::Clock> ClientLink<'b, R> {
    pub(crate) fn new(
        rt: &'b R,
        last: &'b LastError,
        stream: TcpStream,
        until: u64,
    ) -> ClientLink<'b, R>
        ensures reads { link_read_faults result ≡ 0 }
        ensures writes { link_write_faults result ≡ 0 }
    {
        ClientLink {
            rt,
            last,
            stream,
            until,
            read_faults: 0,
            write_faults: 0,
        }
    }

    // Whether a read or a write failed.
    pub(crate) fn is_faulty(&self) -> bool
        ensures { IsTrue result ↔ (0 < link_read_faults self.now + link_write_faults self.now) }
    {
        self.read_faults > 0 || self.write_faults > 0
    }
}

impl<'b, R: rt::Clock> Source for ClientLink<'b, R> {
    ghost left = { λ _. None };

    ghost read_faults = { link_read_faults };

    ghost outward = { link_output };

    fn read(&mut self, buf: &mut [u8]) -> Result<usize, PortFault>
        requires { 0 < length buf.old }
        ensures bound { ReadsAtMost result buf.new }
        ensures bytes { ReadConsumes None None result buf.new }
        ensures cause { HasCause (link_read_faults self.old) (link_read_faults self.new) result }
        ensures aside { link_output self.new ≡ link_output self.old }
    {
        match read_some(self.rt, &mut self.stream, self.until, buf) {
            Ok(count) => Ok(count),
            Err(error) => {
                self.last.note(&error);
                self.read_faults = self.read_faults.saturating_add(1);
                Err(PortFault)
            }
        }
    }
}

impl<'b, R: rt::Clock> ByteSink for ClientLink<'b, R> {
    ghost written = { λ _. None };

    ghost write_faults = { link_write_faults };

    ghost inward = { link_input };

    fn write(&mut self, piece: &[u8]) -> Result<usize, PortFault>
        requires { 0 < length piece.now }
        ensures bound { WritesAtMost result piece.now }
        ensures some { IfOk result (λ n. 0 < n) }
        ensures bytes { WriteAppends None None result piece.now }
        ensures cause { HasCause (link_write_faults self.old) (link_write_faults self.new) result }
        ensures aside { link_input self.new ≡ link_input self.old }
    {
        let sent = write_some(self.rt, &mut self.stream, self.until, piece);
        if let Err(error) = &sent {
            self.last.note(error);
        }
        match sent {
            Ok(count) if count > 0 => Ok(count),
            _ => {
                self.write_faults = self.write_faults.saturating_add(1);
                Err(PortFault)
            }
        }
    }
}

impl<'b, R: rt::Clock> Link for ClientLink<'b, R> {
    ghost number = { λ _. 0 };

    ghost outward_is = { λ l. refl };

    ghost inward_is = { λ l. refl };
}

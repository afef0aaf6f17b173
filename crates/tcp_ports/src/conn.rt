ghost use Rattle.std.specs.Prelude.{◌≡◌, ◌<◌, None, IfOk, length, refl};
ghost use Rattle.std.specs.Io.{ReadsAtMost, WritesAtMost};
ghost use Rattle.std.specs.Io.KnownBytes.{ReadConsumes, WriteAppends};
ghost use Rattle.front_ports.specs.Cause.{HasCause};
ghost use Rattle.tcp_ports.specs.Counts.{conn_read_faults, conn_write_faults, conn_input, conn_output, conn_from, conn_wishes};

use crate::clock::{millis_now, timeout_of};
use crate::expect::answer_expect;
use crate::idle::request_begins;
use crate::limits::TcpLimits;
use crate::linger::linger;
use crate::listener::SharedListener;
use crate::poll::{INPUT, MOST_TURNS, read_some, wait_for};
use crate::port_counts::ConnEnd;
use crate::rate::RateFloor;
use crate::request_scan::RequestScan;
use crate::send::send_some;
use front_ports::{ByteSink, Conn, PortFault, Source};
use std::io::ErrorKind;
use std::net::TcpStream;
use std::os::fd::{AsRawFd, RawFd};
use std::{io, rt};

/// A connection of a client. It is idle after a write, unless bytes of the next request came already.
#[derive(Drop)]
pub struct TcpConn<'b, R> {
    rt: &'b R,
    listener: &'b SharedListener,
    stream: TcpStream,
    peer: [u8; 4],
    // Whether it waits for the first byte of a request: none came since it was accepted, or since a write that followed the
    // last byte of a request.
    idle: bool,
    answered: bool,
    // Where the bytes that were read stand, and how they come.
    requests: RequestScan,
    sending: RateFloor,
    // Whether the input ended, or counts as ended.
    ended: bool,
    // How it ends, by what its calls came to.
    how: ConnEnd,
    read_faults: u64,
    write_faults: u64,
}

// How long the first try to read a request lasts, in milliseconds: no longer than any grace.
const FIRST_WAIT: u64 = 20;

fn first_wait(limits: &TcpLimits) -> u64 {
    FIRST_WAIT.min(limits.idle_grace).min(limits.fresh_grace)
}

// Reads bytes of a request that has begun.
fn read_request(
    rt: &impl rt::Clock,
    listener: &SharedListener,
    stream: &mut TcpStream,
    requests: &mut RequestScan,
    buf: &mut [u8],
) -> io::Result<usize>
    ensures { ReadsAtMost result buf.new }
{
    let limits = listener.limits();
    for _ in 0..MOST_TURNS {
        let start = millis_now(rt);
        let read = read_some(stream, buf)?;
        if read.is_none() {
            wait_for(stream.as_raw_fd(), INPUT, limits.wake_interval);
        }
        let count = read.unwrap_or(0);
        let waited = millis_now(rt).saturating_sub(start);
        let late = requests.is_late(&buf[..count], waited, limits);
        if late || listener.is_past_shutdown(rt) {
            break;
        }
        if read.is_some() {
            return Ok(count);
        }
    }
    Err(io::Error::from(ErrorKind::TimedOut))
}

// Reads bytes of a request whose first bytes came before. A client that waits for the interim reply gets it first.
fn read_on(
    rt: &impl rt::Clock,
    listener: &SharedListener,
    stream: &mut TcpStream,
    requests: &mut RequestScan,
    sending: &mut RateFloor,
    buf: &mut [u8],
) -> io::Result<usize>
    ensures { ReadsAtMost result buf.new }
{
    if requests.awaits_continue() {
        answer_expect(rt, listener, stream, sending)?;
        requests.continued();
    }
    read_request(rt, listener, stream, requests, buf)
}

// Reads the first bytes of a request. No byte is the end of the connection, or it counts as ended, which `how` notes.
fn read_first(
    rt: &impl rt::Clock,
    listener: &SharedListener,
    stream: &mut TcpStream,
    answered: bool,
    requests: &mut RequestScan,
    how: &mut ConnEnd,
    buf: &mut [u8],
) -> io::Result<usize>
    ensures { ReadsAtMost result buf.new }
{
    let limits = listener.limits();
    if let Some(count) = read_some(stream, buf)? {
        requests.is_late(&buf[..count], 0, limits);
        return Ok(count);
    }
    let grace = if answered {
        limits.idle_grace
    } else {
        limits.fresh_grace
    };
    // That try has waited for a part of it.
    let rest = grace.saturating_sub(first_wait(limits));
    if !request_begins(rt, listener, stream.as_raw_fd(), rest) {
        *how = ConnEnd::Idle;
        return Ok(0);
    }
    read_request(rt, listener, stream, requests, buf)
}

impl<'b, R: rt::Clock> TcpConn<'b, R> {
    pub(crate) fn new(
        rt: &'b R,
        listener: &'b SharedListener,
        stream: TcpStream,
        peer: [u8; 4],
    ) -> io::Result<TcpConn<'b, R>> {
        // So a request that comes at once costs no wait of its own.
        stream.set_read_timeout(Some(timeout_of(first_wait(listener.limits()))))?;
        Ok(TcpConn {
            rt,
            listener,
            stream,
            peer,
            idle: true,
            answered: false,
            requests: RequestScan::new(),
            sending: RateFloor::new(),
            ended: false,
            how: ConnEnd::Well,
            read_faults: 0,
            write_faults: 0,
        })
    }

    pub(crate) fn raw_fd(&self) -> RawFd {
        self.stream.as_raw_fd()
    }

    /// Ends it, and gives how that came. A client that has ended its side, or takes nothing, isn't waited for.
    pub(crate) fn end(self) -> ConnEnd {
        if !self.ended && self.write_faults == 0 {
            linger(self.rt, self.listener.limits(), &self.stream);
        }
        self.how
    }
}

impl<'b, R: rt::Clock> Source for TcpConn<'b, R> {
    ghost left = { λ _. None };

    ghost read_faults = { conn_read_faults };

    ghost outward = { conn_output };

    fn read(&mut self, buf: &mut [u8]) -> Result<usize, PortFault>
        requires { 0 < length buf.old }
        ensures bound { ReadsAtMost result buf.new }
        ensures bytes { ReadConsumes None None result buf.new }
        ensures cause { HasCause (conn_read_faults self.old) (conn_read_faults self.new) result }
        ensures aside { conn_output self.new ≡ conn_output self.old }
    {
        if self.ended {
            return Ok(0);
        }
        let (rt, listener) = (self.rt, self.listener);
        let read = if self.idle {
            read_first(
                rt,
                listener,
                &mut self.stream,
                self.answered,
                &mut self.requests,
                &mut self.how,
                buf,
            )
        } else {
            read_on(
                rt,
                listener,
                &mut self.stream,
                &mut self.requests,
                &mut self.sending,
                buf,
            )
        };
        match read {
            Ok(count) => {
                self.idle = false;
                self.ended = count == 0;
                Ok(count)
            }
            Err(error) => {
                self.how = ConnEnd::of_read(&error);
                self.read_faults = self.read_faults.saturating_add(1);
                Err(PortFault)
            }
        }
    }
}

impl<'b, R: rt::Clock> ByteSink for TcpConn<'b, R> {
    ghost written = { λ _. None };

    ghost write_faults = { conn_write_faults };

    ghost inward = { conn_input };

    fn write(&mut self, piece: &[u8]) -> Result<usize, PortFault>
        requires { 0 < length piece.now }
        ensures bound { WritesAtMost result piece.now }
        ensures some { IfOk result (λ n. 0 < n) }
        ensures bytes { WriteAppends None None result piece.now }
        ensures cause { HasCause (conn_write_faults self.old) (conn_write_faults self.new) result }
        ensures aside { conn_input self.new ≡ conn_input self.old }
    {
        self.idle = self.requests.is_between();
        self.answered = true;
        let sent = send_some(
            self.rt,
            self.listener,
            true,
            &mut self.stream,
            &mut self.sending,
            piece,
        );
        if let Err(error) = &sent {
            self.how = ConnEnd::of_write(error);
        }
        match sent {
            Ok(count) if count > 0 => Ok(count),
            _ => {
                self.write_faults = self.write_faults.saturating_add(1);
                Err(PortFault)
            }
        }
    }
}

impl<'b, R: rt::Clock> Conn for TcpConn<'b, R> {
    ghost from = { conn_from };

    ghost wishes = { conn_wishes };

    ghost outward_is = { λ c. refl };

    ghost inward_is = { λ c. refl };

    fn peer(&self) -> [u8; 4] {
        self.peer
    }

    // So that the next client gets the bay, and this one knows that its next request needs another connection.
    fn wishes_to_end(&mut self) -> bool {
        self.listener.is_closed() || self.listener.is_crowded()
    }
}

ghost use Rattle.std.specs.Prelude.{◌≡◌, ◌<◌, ◌+◌, ◌↔◌, IsTrue, None, IfOk, length, refl};
ghost use Rattle.std.specs.Io.{ReadsAtMost, WritesAtMost};
ghost use Rattle.std.specs.Io.KnownBytes.{ReadConsumes, WriteAppends};
ghost use Rattle.front_ports.specs.Cause.{HasCause};
ghost use Rattle.tcp_ports.specs.Counts.{link_read_faults, link_write_faults, link_input, link_output};

use crate::clock::millis_now;
use crate::dial_fault::DialFault;
use crate::keep_alive::keep_alive;
use crate::listener::SharedListener;
use crate::poll::{BREAK, INPUT, MOST_TURNS, NO_SOCKET, PEER_END, read_some, wait_for_any};
use crate::rate::RateFloor;
use crate::reply_scan::ReplyScan;
use crate::send::send_some;
use crate::served_client::ServedClient;
use front_ports::{ByteSink, Link, PortFault, Source};
use std::io::ErrorKind;
use std::net::TcpStream;
use std::os::fd::{AsRawFd, RawFd};
use std::{io, rt};

/// A link to a backend, on behalf of the client of its bay where there is one.
#[derive(Drop)]
pub struct TcpLink<'b, R> {
    rt: &'b R,
    listener: &'b SharedListener,
    client: &'b ServedClient,
    fault: &'b DialFault,
    stream: TcpStream,
    long_running: bool,
    reply: ReplyScan,
    sending: RateFloor,
    writes: u64,
    read_faults: u64,
    write_faults: u64,
}

// Waits for bytes of a reply that is silent. Whether nobody wants them any more: its client has gone, or it is a stream, and
// the listener was closed.
fn is_abandoned(listener: &SharedListener, client: RawFd, link: RawFd, streams: bool) -> bool {
    let closes = if streams {
        listener.raw_fd()
    } else {
        NO_SOCKET
    };
    let events = [(link, INPUT), (client, PEER_END), (closes, BREAK)];
    let [bytes, gone, _] = wait_for_any(events, listener.limits().wake_interval);
    !bytes && (gone || streams && listener.is_closed())
}

// Reads bytes of a reply. Once its head has come, the reply to a long-running request of a client may be silent. Any other reply
// for a client may be so for the stall timeout, and what has no client goes on where the listener is closed.
fn read_reply(
    rt: &impl rt::Clock,
    listener: &SharedListener,
    client: RawFd,
    stream: &mut TcpStream,
    long_running: bool,
    reply: &mut ReplyScan,
    buf: &mut [u8],
) -> io::Result<usize>
    ensures { ReadsAtMost result buf.new }
{
    let limits = listener.limits();
    let has_client = client != NO_SOCKET;
    for _ in 0..MOST_TURNS {
        let in_body = has_client && reply.is_in_body();
        let streams = in_body && long_running;
        let start = millis_now(rt);
        let read = read_some(stream, buf)?;
        if read.is_none() && is_abandoned(listener, client, stream.as_raw_fd(), streams) {
            break;
        }
        let count = read.unwrap_or(0);
        let waited = millis_now(rt).saturating_sub(start);
        let late = if in_body {
            reply.is_stalled(count, waited, limits.stall_timeout) && !long_running
        } else {
            reply.is_late(&buf[..count], waited, limits)
        };
        if late || has_client && listener.is_past_shutdown(rt) {
            break;
        }
        if read.is_some() {
            return Ok(count);
        }
    }
    Err(io::Error::from(ErrorKind::TimedOut))
}

impl<'b, R: rt::Clock> TcpLink<'b, R> {
    pub(crate) fn new(
        rt: &'b R,
        listener: &'b SharedListener,
        client: &'b ServedClient,
        fault: &'b DialFault,
        stream: TcpStream,
        long_running: bool,
    ) -> TcpLink<'b, R>
        ensures reads { link_read_faults result ≡ 0 }
        ensures writes { link_write_faults result ≡ 0 }
    {
        if long_running {
            // A stream has no timeout, but its backend's machine may go.
            keep_alive(stream.as_raw_fd());
        }
        TcpLink {
            rt,
            listener,
            client,
            fault,
            stream,
            long_running,
            reply: ReplyScan::new(),
            sending: RateFloor::new(),
            writes: 0,
            read_faults: 0,
            write_faults: 0,
        }
    }

    // Whether a read or a write failed.
    pub(crate) fn is_faulty(&self) -> bool
        ensures { IsTrue result ↔ (0 < link_read_faults self.now + link_write_faults self.now) }
    {
        self.read_faults > 0 || self.write_faults > 0
    }
}

impl<'b, R: rt::Clock> Source for TcpLink<'b, R> {
    ghost left = { λ _. None };

    ghost read_faults = { link_read_faults };

    ghost outward = { link_output };

    fn read(&mut self, buf: &mut [u8]) -> Result<usize, PortFault>
        requires { 0 < length buf.old }
        ensures bound { ReadsAtMost result buf.new }
        ensures bytes { ReadConsumes None None result buf.new }
        ensures cause { HasCause (link_read_faults self.old) (link_read_faults self.new) result }
        ensures aside { link_output self.new ≡ link_output self.old }
    {
        let client = self.client.socket();
        match read_reply(
            self.rt,
            self.listener,
            client,
            &mut self.stream,
            self.long_running,
            &mut self.reply,
            buf,
        ) {
            Ok(count) => Ok(count),
            Err(error) => {
                self.fault.note(&error);
                self.read_faults = self.read_faults.saturating_add(1);
                Err(PortFault)
            }
        }
    }
}

impl<'b, R: rt::Clock> ByteSink for TcpLink<'b, R> {
    ghost written = { λ _. None };

    ghost write_faults = { link_write_faults };

    ghost inward = { link_input };

    fn write(&mut self, piece: &[u8]) -> Result<usize, PortFault>
        requires { 0 < length piece.now }
        ensures bound { WritesAtMost result piece.now }
        ensures some { IfOk result (λ n. 0 < n) }
        ensures bytes { WriteAppends None None result piece.now }
        ensures cause { HasCause (link_write_faults self.old) (link_write_faults self.new) result }
        ensures aside { link_input self.new ≡ link_input self.old }
    {
        // A small piece would wait for the backend to have taken the one before. The first one has none before it.
        if self.writes == 1 {
            let _ = self.stream.set_nodelay(true);
        }
        self.writes = self.writes.saturating_add(1);
        let has_client = self.client.socket() != NO_SOCKET;
        let sent = send_some(
            self.rt,
            self.listener,
            has_client,
            &mut self.stream,
            &mut self.sending,
            piece,
        );
        if let Err(error) = &sent {
            self.fault.note(error);
        }
        match sent {
            Ok(count) if count > 0 => Ok(count),
            _ => {
                self.write_faults = self.write_faults.saturating_add(1);
                Err(PortFault)
            }
        }
    }
}

impl<'b, R: rt::Clock> Link for TcpLink<'b, R> {
    ghost number = { λ _. 0 };

    ghost outward_is = { λ l. refl };

    ghost inward_is = { λ l. refl };
}

ghost use Rattle.std.specs.Prelude.{◌≡◌, ◌<◌, ◌≤◌, ◌+◌, [], ◌∷◌, None, IfOk, OnErr};
ghost use Rattle.front_ports.specs.Cause.{HasCause, Rose};
ghost use Rattle.tcp_ports.specs.Counts.{dial_faults, dial_link_faults, link_read_faults, link_write_faults};

use crate::dial_fault::DialFault;
use crate::link::TcpLink;
use crate::listener::SharedListener;
use crate::open::open_stream;
use crate::poll::NO_SOCKET;
use crate::served_client::ServedClient;
use front_base::Address;
use front_ports::{Dial, PortFault};
use std::io::ErrorKind;
use std::net::{Net, TcpStream};
use std::{io, rt};

/// The dial of one bay or drainer, which opens a link for each call.
#[derive(Drop)]
pub struct TcpDial<'b, R> {
    rt: &'b R,
    listener: &'b SharedListener,
    client: &'b ServedClient,
    fault: &'b DialFault,
    faults: u64,
    link_faults: u64,
}

impl<'b, R: Net<Stream = TcpStream> + rt::Clock> TcpDial<'b, R> {
    /// A dial for the client that the door of the same bay notes, or for none where no door has `client`. The listener
    /// gives the limits, and ends links of clients once it is closed. A dial without a client fails at once where the listener
    /// is closed and has had no connection for longer than its `shutdown_timeout`. Why a call fails is noted in `fault`.
    pub fn new(
        rt: &'b R,
        listener: &'b SharedListener,
        client: &'b ServedClient,
        fault: &'b DialFault,
    ) -> TcpDial<'b, R>
        ensures faults { dial_faults result ≡ 0 }
        ensures link_faults { dial_link_faults result ≡ 0 }
    {
        TcpDial {
            rt,
            listener,
            client,
            fault,
            faults: 0,
            link_faults: 0,
        }
    }

    fn open(&self, to: Address) -> io::Result<TcpStream> {
        let has_client = self.client.socket() != NO_SOCKET;
        if !has_client && self.listener.is_past_end(self.rt) {
            return Err(io::Error::from(ErrorKind::TimedOut));
        }
        open_stream(self.rt, self.listener.limits(), to)
    }
}

impl<'b, R: Net<Stream = TcpStream> + rt::Clock> Dial for TcpDial<'b, R> {
    type K = TcpLink<'b, R>;

    ghost calls = { λ _. None };

    ghost faults = { dial_faults };

    ghost link_faults = { dial_link_faults };

    fn dial(&mut self, to: Address, long_running: bool) -> Result<TcpLink<'b, R>, PortFault> {
        match self.open(to) {
            Ok(stream) => {
                self.listener.counters().dialed(None);
                Ok(TcpLink::new(
                    self.rt,
                    self.listener,
                    self.client,
                    self.fault,
                    stream,
                    long_running,
                ))
            }
            Err(error) => {
                self.listener.counters().dialed(Some(&error));
                self.fault.note(&error);
                self.faults = self.faults.saturating_add(1);
                Err(PortFault)
            }
        }
    }

    fn done(&mut self, link: TcpLink<'b, R>) {
        if link.is_faulty() {
            self.link_faults = self.link_faults.saturating_add(1);
        }
    }
}

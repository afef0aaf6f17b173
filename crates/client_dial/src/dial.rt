ghost use Rattle.std.specs.Prelude.{◌≡◌, None};
ghost use Rattle.client_dial.specs.Counts.{dial_faults, dial_link_faults};

use crate::clock::millis_now;
use crate::last_error::LastError;
use crate::link::ClientLink;
use front_base::Address;
use front_ports::{Dial, PortFault};
use std::net::{IpAddr, Ipv4Addr, Net, SocketAddr, TcpStream};
use std::time::Duration;
use std::{io, rt};
use tcp_ports::DEFAULT_LIMITS;

/// Opens a link for each call.
#[derive(Drop)]
pub struct ClientDial<'b, R> {
    rt: &'b R,
    last: &'b LastError,
    // How long a call may take, in milliseconds.
    limit: u64,
    faults: u64,
    link_faults: u64,
}

// Opens a stream for a call that may take so many milliseconds.
fn open_stream<R: Net<Stream = TcpStream>>(
    net: &R,
    to: Address,
    limit: u64,
) -> io::Result<TcpStream> {
    let [a, b, c, d] = to.ip;
    let at = SocketAddr::new(IpAddr::V4(Ipv4Addr::new(a, b, c, d)), to.port);
    let most = DEFAULT_LIMITS.dial_timeout.min(limit).max(1);
    let stream = TcpStream::connect_timeout(net, &at, Duration::from_millis(most))?;
    stream.set_nodelay(true)?;
    Ok(stream)
}

impl<'b, R> ClientDial<'b, R> {
    /// A dial that has opened nothing. A call may take so many milliseconds in all, from its dial to the last byte of its reply, and
    /// `dial_timeout` of a server's defaults of these to open its link. What fails is noted in `last`, and a call past its limit as a
    /// timeout.
    pub fn new(rt: &'b R, last: &'b LastError, limit: u64) -> ClientDial<'b, R>
        ensures faults { dial_faults result ≡ 0 }
        ensures link_faults { dial_link_faults result ≡ 0 }
    {
        ClientDial {
            rt,
            last,
            limit,
            faults: 0,
            link_faults: 0,
        }
    }
}

impl<'b, R: Net<Stream = TcpStream> + rt::Clock> Dial for ClientDial<'b, R> {
    type K = ClientLink<'b, R>;

    ghost calls = { λ _. None };

    ghost faults = { dial_faults };

    ghost link_faults = { dial_link_faults };

    fn dial(&mut self, to: Address, _long_running: bool) -> Result<ClientLink<'b, R>, PortFault> {
        let until = millis_now(self.rt).saturating_add(self.limit);
        match open_stream(self.rt, to, self.limit) {
            Ok(stream) => Ok(ClientLink::new(self.rt, self.last, stream, until)),
            Err(error) => {
                self.last.note(&error);
                self.faults = self.faults.saturating_add(1);
                Err(PortFault)
            }
        }
    }

    fn done(&mut self, link: ClientLink<'b, R>) {
        if link.is_faulty() {
            self.link_faults = self.link_faults.saturating_add(1);
        }
    }
}

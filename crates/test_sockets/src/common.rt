// What the tests of several kinds call.
use front_base::Address;
use front_ports::{PortFault, Source};
use std::io;
use std::net::{IpAddr, Ipv4Addr, Net, SocketAddr, TcpStream};
use std::time::{Clock, Instant};
use tcp_ports::{DEFAULT_LIMITS, SharedListener, TcpLimits};

// Times that are short enough for a test, and far from each other.
pub(crate) const SHORT: TcpLimits = TcpLimits {
    idle_timeout: 2_000,
    idle_grace: 120,
    fresh_grace: 60,
    read_header_timeout: 150,
    min_rate: 1_000,
    stall_timeout: 300,
    linger_timeout: 200,
    response_header_timeout: 250,
    shutdown_timeout: 300,
    wake_interval: 50,
    ..DEFAULT_LIMITS
};

// The IPv4 address and the port, zeros for another address.
pub(crate) fn address_of(from: SocketAddr) -> Address {
    let ip = match from.ip() {
        IpAddr::V4(ip) => ip.octets(),
        IpAddr::V6(_) => [0; 4],
    };
    Address {
        ip,
        port: from.port(),
    }
}

pub(crate) fn socket_addr_of(to: Address) -> SocketAddr {
    let [a, b, c, d] = to.ip;
    SocketAddr::new(IpAddr::V4(Ipv4Addr::new(a, b, c, d)), to.port)
}

// An address of the loopback interface that the system picks.
pub(crate) const ANY_PORT: Address = Address {
    ip: [127, 0, 0, 1],
    port: 0,
};

pub(crate) fn listen(rt: &HostRuntime, limits: TcpLimits) -> io::Result<SharedListener> {
    let listener = SharedListener::bind(rt, rt.alloc(), ANY_PORT, limits, false)?;
    listener.open()?;
    Ok(listener)
}

pub(crate) fn connect<R: Net<Stream = TcpStream>>(rt: &R, to: Address) -> io::Result<TcpStream> {
    TcpStream::connect(rt, socket_addr_of(to))
}

pub(crate) fn millis_since<R: Clock>(rt: &R, start: &Instant) -> io::Result<u64> {
    Ok(u64::try_from(start.elapsed(rt)?.as_millis()).unwrap_or(u64::MAX))
}

// Reads until nothing comes: how it ended, and after how many milliseconds.
pub(crate) fn read_out<S: Source>(
    rt: &HostRuntime,
    source: &mut S,
) -> io::Result<(Result<usize, PortFault>, u64)> {
    let start = Instant::now(rt)?;
    let mut buf = [0u8; 512];
    let mut end = Ok(0);
    for _ in 0..1_000 {
        end = source.read(&mut buf);
        match end {
            Ok(count) if count > 0 => {}
            _ => break,
        }
    }
    Ok((end, millis_since(rt, &start)?))
}

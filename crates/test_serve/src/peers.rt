// The peers of a server: its clients, its backend and its webhook.
use front_base::Address;
use std::alloc::Global;
use std::io;
use std::io::{Read, Write};
use std::net::{Net, SocketAddr, TcpListener, TcpStream};

pub fn connect<R: Net<Stream = TcpStream>>(rt: &R, to: Address) -> io::Result<TcpStream> {
    let ip = to.ip;
    TcpStream::connect(rt, SocketAddr::from((ip, to.port)))
}

pub fn listen<R: Net<Listener = TcpListener, Stream = TcpStream>>(
    rt: &R,
) -> io::Result<TcpListener> {
    TcpListener::bind(rt, SocketAddr::from(([127, 0, 0, 1], 0)))
}

/// Whether the peer sends a text that ends with this one, before it ends or sends 64 KiB.
pub fn reads_up_to(alloc: Global, peer: &mut TcpStream, end: &str) -> io::Result<bool> {
    let mut text = Vec::new(alloc);
    let mut buf = [0u8; 1];
    for _ in 0..65_536 {
        if peer.read(&mut buf)? == 0 {
            return Ok(false);
        }
        text.push(buf[0])?;
        if text.as_slice().ends_with(end.as_bytes()) {
            return Ok(true);
        }
    }
    Ok(false)
}

/// Whether the peer ends within 64 KiB.
pub fn ends(peer: &mut TcpStream) -> io::Result<bool> {
    let mut buf = [0u8; 1];
    for _ in 0..65_536 {
        if peer.read(&mut buf)? == 0 {
            return Ok(true);
        }
    }
    Ok(false)
}

/// The next peer of a listener, whose request ends so and gets this answer. Whether it came.
pub fn answer_next(
    alloc: Global,
    listener: &TcpListener,
    end: &str,
    answer: &str,
) -> io::Result<bool> {
    let (mut peer, _) = listener.accept()?;
    let came = reads_up_to(alloc, &mut peer, end)?;
    peer.write_all(answer.as_bytes())?;
    Ok(came)
}

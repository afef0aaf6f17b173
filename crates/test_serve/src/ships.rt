// `ship` posts while its input goes on: a run that read all of it first would wait for the peer, which waits for a post.
use crate::peers::{answer_next, connect, listen};
use command_ends::{ReaderSource, Status};
use front_base::Address;
use front_ports::MemBytes;
use ship_command::{Shipped, run_ship};
use ship_plant::{PostShare, ShipPlant};
use std::alloc::{AllocError, Global};
use std::io::{Eprint, Write};
use std::net::{Net, Shutdown, TcpListener, TcpStream};
use std::sync::Wait;
use std::test::Fail;
use std::thread::Threads;
use std::{io, rt, thread};

const OK: &str = "HTTP/1.1 200 OK\r\nContent-Length: 0\r\n\r\n";

// The sockets of one run: where its posts arrive, and both ends of the link that its log comes by.
#[derive(Drop)]
struct Ends {
    hook: TcpListener,
    feeder: TcpStream,
    log: TcpStream,
}

fn port_of(listener: &TcpListener) -> io::Result<u16> {
    Ok(listener.local_addr()?.port())
}

fn open_ends(rt: &HostRuntime) -> io::Result<Ends> {
    let logs = listen(rt)?;
    let at = Address {
        ip: [127, 0, 0, 1],
        port: port_of(&logs)?,
    };
    let hook = listen(rt)?;
    let feeder = connect(rt, at)?;
    let (log, _) = logs.accept()?;
    Ok(Ends { hook, feeder, log })
}

fn words_of(alloc: Global, hook: u16) -> Result<Vec<String>, AllocError> {
    let line = format!(in alloc;
        "ship|--batch-max-size=1|--audit-webhook-url=http://127.0.0.1:{hook}/"
    )?;
    let mut words = Vec::new(alloc);
    for word in line.split('|') {
        words.push(String::from_str(alloc, word)?)?;
    }
    Ok(words)
}

// Sends two lines, and the third one once the first is posted.
fn feed(alloc: Global, log: &mut TcpStream, hook: &TcpListener) -> io::Result<&'static str> {
    log.write_all(b"{\"n\":1}\n{\"n\":2}\n")?;
    if !answer_next(alloc, hook, "{\"n\":1}]}", OK)? {
        return Ok("the first line was not posted alone");
    }
    log.write_all(b"{\"n\":3}\n")?;
    log.shutdown(Shutdown::Write)?;
    if !answer_next(alloc, hook, "{\"n\":2}]}", OK)? {
        return Ok("the second line was not posted next");
    }
    if !answer_next(alloc, hook, "{\"n\":3}]}", OK)? {
        return Ok("the third line was not posted last");
    }
    Ok("all was posted")
}

// How a run ends that posts to that port and reads its log from this link, if memory suffices for its words.
fn shipped<R: Threads + Wait + Copy + Drop + Net<Stream = TcpStream> + rt::Clock + Eprint>(
    rt: &R,
    alloc: Global,
    hook: u16,
    log: TcpStream,
) -> Option<Status> {
    let mut out = MemBytes::new(alloc, 4096, Vec::new(alloc)).ok()?;
    let words = words_of(alloc, hook).ok()?;
    let share = PostShare::new(false);
    let mut plant = ShipPlant::new(rt, &share);
    let mut input = ReaderSource::new(log);
    let Shipped { status, .. } = run_ship(alloc, &words, &mut plant, &mut input, &mut out);
    Some(status)
}

#[test]
fn lines_are_posted_while_the_log_goes_on(rt: HostRuntime) -> Result<(), Fail> {
    let alloc = rt.alloc();
    let Ends {
        hook,
        mut feeder,
        log,
    } = open_ends(&rt)?;
    let port = port_of(&hook)?;
    let player = thread::spawn(&rt, move || {
        feed(alloc, &mut feeder, &hook).unwrap_or("a socket failed")
    })?;
    assert_eq!(rt; shipped(&rt, alloc, port, log), Some(Status::Done));
    assert_eq!(rt; player.join(&rt), "all was posted");
    Ok(())
}

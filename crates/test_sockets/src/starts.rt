// The start of a server: its doors wait until the listener is opened, and clients are refused.
use crate::common::{ANY_PORT, SHORT, connect};
use crate::sockets::{ask, serve_bay};
use std::test::Fail;
use std::time::Duration;
use std::{io, thread};
use tcp_ports::SharedListener;

// Waits until so many doors wait. Whether they do.
fn are_running(rt: &HostRuntime, listener: &SharedListener, doors: u64) -> bool {
    for _ in 0..10_000 {
        if listener.running() == doors {
            return true;
        }
        thread::sleep(rt, Duration::from_millis(1));
    }
    false
}

// Asks two doors before they are opened, and again once they are, where that is due. What came.
fn ask_on(rt: &HostRuntime, listener: &SharedListener, opens: bool) -> io::Result<&'static str> {
    if !are_running(rt, listener, 2) {
        return Ok("a door doesn't wait");
    }
    if connect(rt, listener.address()).is_ok() {
        return Ok("too early");
    }
    if opens {
        listener.open()?;
        ask(rt, listener.address(), "GET / HTTP/1.1\r\n\r\n")?;
    }
    Ok("as it should")
}

fn ask_early(rt: &HostRuntime, listener: &SharedListener, opens: bool) -> io::Result<&'static str> {
    let said = ask_on(rt, listener, opens);
    listener.close();
    said
}

#[test]
fn no_door_gives_a_connection_before_it_is_opened(rt: HostRuntime) -> Result<(), Fail> {
    for opens in [true, false] {
        let listener = SharedListener::bind(&rt, rt.alloc(), ANY_PORT, SHORT, false)?;
        let listener = &listener;
        assert!(rt; !listener.is_open() && listener.running() == 0);
        let (asked, (first, second)) = thread::join(
            &rt,
            || ask_early(&rt, listener, opens).unwrap_or("an error"),
            || thread::join(
                &rt,
                || serve_bay(&rt, listener, 0),
                || serve_bay(&rt, listener, 0),
            ),
        );
        assert_eq!(rt; asked, "as it should");
        assert_eq!(rt; first.saturating_add(second), u64::from(opens));
        assert_eq!(rt; listener.is_open(), opens);
        assert_eq!(rt; listener.running(), 2);
    }
    Ok(())
}

// Whether the first and the second of two listeners open that were bound to one address, the second one first.
fn both_open(rt: &HostRuntime) -> io::Result<[bool; 2]> {
    let first = SharedListener::bind(rt, rt.alloc(), ANY_PORT, SHORT, false)?;
    let second = SharedListener::bind(rt, rt.alloc(), first.address(), SHORT, false)?;
    let second_opens = second.open().is_ok();
    Ok([first.open().is_ok(), second_opens])
}

#[test]
fn one_server_listens_at_an_address(rt: HostRuntime) -> Result<(), Fail> {
    assert_eq!(rt; both_open(&rt).unwrap_or([true; 2]), [false, true]);
    Ok(())
}

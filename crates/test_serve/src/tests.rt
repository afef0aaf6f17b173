use crate::counted::{Counted, figures_of};
use crate::play::{Peers, play};
use crate::setting::configured;
use front_base::Address;
use serve_command::{Ran, Serve};
use serve_runs::RunStatus;
use std::alloc::Global;
use std::sync::Arc;
use std::test::Fail;
use std::thread;
use tcp_plant::{AnsweredCounts, TcpGate, TcpPlant};
use tcp_ports::DEFAULT_LIMITS;

// A gate for two bays, which is open, and the end of it that closes it.
fn open_gate(rt: &HostRuntime) -> Result<(Arc<TcpGate>, Arc<TcpGate>), Fail> {
    let alloc = rt.alloc();
    let at = Address {
        ip: [127, 0, 0, 1],
        port: 0,
    };
    let hook = String::from_str(alloc, "webhook")?;
    let log = String::new(alloc);
    let gate = TcpGate::bind(rt, alloc, at, DEFAULT_LIMITS, 2, log, hook, false)?;
    gate.open()?;
    let gate = Arc::new(alloc, gate)?;
    let closer = Arc::try_clone(&gate)?;
    Ok((gate, closer))
}

// What the run of a server over these peers is made of.
fn prepared(alloc: Global, peers: &Peers) -> Result<Serve, Fail> {
    let (hook, backend) = peers.ports()?;
    configured(alloc, hook, backend)
}

#[test]
fn bays_and_the_drainer_work_at_once(rt: HostRuntime) -> Result<(), Fail> {
    let alloc = rt.alloc();
    let peers = Peers::open(&rt)?;
    let serve = prepared(alloc, &peers)?;
    let (gate, closer) = match open_gate(&rt) {
        Ok(ends) => ends,
        Err(fail) => {
            drop(serve);
            return Err(fail);
        }
    };
    let listen = gate.address();
    let Ok(mut plant) = TcpPlant::new(&rt, &gate) else {
        drop(serve);
        return Err(Fail::from("a plant"));
    };
    let Ok(player) = thread::spawn(&rt, move || {
        let played = play(&rt, listen, &peers).unwrap_or("a socket failed");
        closer.close();
        played
    }) else {
        drop(serve);
        return Err(Fail::from("a player"));
    };
    let Ran {
        words: _,
        ended,
        counted,
    } = serve.run(&rt, alloc, listen, &mut plant);
    assert_eq!(rt; player.join(&rt), "all was served");
    assert!(rt; counted);
    let expected = Counted {
        status: RunStatus::Done,
        requests: 6,
        ended: 2,
        written: 13,
        lost: 0,
    };
    assert_eq!(rt; figures_of(ended), expected);
    assert_eq!(rt; gate.running(), 3);
    assert_eq!(rt; gate.hook().counts().written, 13);
    assert_eq!(rt; gate.hook().counts().offered, 13);
    let answered = AnsweredCounts {
        informational: 0,
        successful: 4,
        redirected: 0,
        client_errors: 2,
        server_errors: 0,
        events: 13,
    };
    assert_eq!(rt; gate.requests().counts(), answered);
    Ok(())
}

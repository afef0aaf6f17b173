use crate::bound::{bound_socket, listens};
use crate::clock::{millis_now, timeout_of};
use crate::held_conns::{HeldConns, MOST_HELD};
use crate::keep_alive::keep_alive;
use crate::limits::TcpLimits;
use crate::poll::{INPUT, MOST_TURNS, NO_SOCKET, wait_for};
use crate::port_counts::{ConnEnd, PortCounters, PortCounts};
use front_base::Address;
use std::alloc::Global;
use std::net::{IpAddr, Net, Shutdown, SocketAddr, TcpListener, TcpStream};
use std::os::fd::{AsRawFd, OwnedFd, RawFd};
use std::sync::atomic::{AtomicBool, AtomicU64, Ordering};
use std::time::Duration;
use std::{io, rt, thread};

// How often a door looks whether the listener is open, in milliseconds.
const OPEN_INTERVAL: u64 = 2;

// How many connections may wait for a bay in the system's queue, as std's listeners have it.
const BACKLOG: i32 = 128;

// For how long a listener that shares its port accepts once it is closed, in milliseconds: as long as handshakes that have begun
// may take.
const HAND_OVER: u64 = 100;

/// The listening socket that all bays share: with one for each bay, a connection could wait at a busy bay while others are
/// free. Any thread may close it.
#[derive(Drop)]
pub struct SharedListener {
    listener: TcpListener,
    // The same socket, for the calls that only a stream has.
    socket: TcpStream,
    address: Address,
    limits: TcpLimits,
    // Whether other sockets may listen at the same address.
    shares_port: bool,
    closed: AtomicBool,
    // Whether no connection is accepted any more, and those that were accepted for doors before.
    ended: AtomicBool,
    held: HeldConns,
    // When a bay first saw that it was closed, in milliseconds, 0 before.
    closed_at: AtomicU64,
    // When a connection was handed back last, in milliseconds, 0 before.
    handed_back_at: AtomicU64,
    counters: PortCounters,
    // How many doors have begun to wait, and whether they may give connections.
    running: AtomicU64,
    opened: AtomicBool,
    // How many bays wait for a connection.
    free_bays: AtomicU64,
    // Whether an idle connection has ended for one that waits, and its bay isn't free yet.
    making_room: AtomicBool,
}

/// The IPv4 address and the port, zeros for another address.
pub(crate) fn address_of(from: SocketAddr) -> Address {
    let ip = match from.ip() {
        IpAddr::V4(ip) => ip.octets(),
        IpAddr::V6(_) => [0; 4],
    };
    Address {
        ip,
        port: from.port(),
    }
}

// Has no wait on a socket last for longer than that.
pub(crate) fn set_options(socket: &TcpStream, most: Duration) -> io::Result<()> {
    socket.set_nodelay(true)?;
    socket.set_write_timeout(Some(most))?;
    socket.set_read_timeout(Some(most))
}

// The same socket as a stream, for the calls that only a stream has, and where it listens. Each connection inherits its
// options, but sets a timeout of its own for its reads. An accept ends by that of reads too, and then looks whether the
// listener was closed.
fn prepare(listener: &TcpListener, limits: &TcpLimits) -> io::Result<(TcpStream, Address)> {
    let address = address_of(listener.local_addr()?);
    let socket = TcpStream::from(OwnedFd::from(listener.try_clone()?));
    keep_alive(listener.as_raw_fd());
    set_options(&socket, timeout_of(limits.wake_interval))?;
    Ok((socket, address))
}

// A listener over a socket that has its address.
fn over(
    listener: TcpListener,
    alloc: Global,
    limits: TcpLimits,
    shares_port: bool,
) -> io::Result<SharedListener> {
    let held = HeldConns::new(alloc)?;
    let (socket, address) = prepare(&listener, &limits)?;
    Ok(SharedListener {
        listener,
        socket,
        address,
        limits: TcpLimits {
            wake_interval: limits.wake_interval.max(1),
            ..limits
        },
        shares_port,
        closed: AtomicBool::new(false),
        ended: AtomicBool::new(false),
        held,
        closed_at: AtomicU64::new(0),
        handed_back_at: AtomicU64::new(0),
        counters: PortCounters::new(),
        running: AtomicU64::new(0),
        opened: AtomicBool::new(false),
        free_bays: AtomicU64::new(0),
        making_room: AtomicBool::new(false),
    })
}

impl SharedListener {
    /// Takes this address, where port 0 is one that the system picks. It can do so again at once after another process did. Where one
    /// still listens there, the error's kind is `AddrInUse`, unless both share the port (`SO_REUSEPORT`). Clients are refused
    /// until it is opened.
    pub fn bind<R: Net<Listener = TcpListener, Stream = TcpStream>>(
        _net: &R,
        alloc: Global,
        at: Address,
        limits: TcpLimits,
        shares_port: bool,
    ) -> io::Result<SharedListener> {
        over(bound_socket(at, shares_port)?, alloc, limits, shares_port)
    }

    /// Where it listens, with the port that the system picked.
    pub fn address(&self) -> Address {
        self.address
    }

    /// How many doors have begun to wait for their first connection, or had it already.
    pub fn running(&self) -> u64 {
        self.running.load(Ordering::SeqCst)
    }

    /// Listens, and lets the doors give connections. Where another process has come to listen there since it was bound, the error's
    /// kind is `AddrInUse`. One that was closed before stays so.
    pub fn open(&self) -> io::Result<()> {
        listens(&self.listener, BACKLOG)?;
        self.opened.store(true, Ordering::SeqCst);
        if self.is_closed() {
            self.end();
        }
        Ok(())
    }

    pub fn is_open(&self) -> bool {
        self.opened.load(Ordering::SeqCst)
    }

    /// What became of its connections, and of the links of its dials.
    pub fn counts(&self) -> PortCounts {
        self.counters.now()
    }

    /// Ends the waits of all bays, idle connections and silent streams. Connections are given no longer, and requests in
    /// progress have `shutdown_timeout` to finish. One that shares its port gives those that were accepted before it returns, up to a
    /// tenth of a second later: until then clients may still have been sent to it.
    pub fn close(&self) {
        if self.closed.swap(true, Ordering::SeqCst) {
            return;
        }
        if self.shares_port && self.is_open() {
            self.hand_over();
        }
        self.end();
    }

    // Accepts nothing any more. What waits in the system's queue is reset.
    fn end(&self) {
        self.ended.store(true, Ordering::SeqCst);
        // It only ends the waits sooner: each of them looks at the flags within `wake_interval`.
        let _ = self.socket.shutdown(Shutdown::Both);
    }

    // Leaves clients to the other sockets of the port. Without a queue the system answers each of them by a cookie, which any of
    // these sockets takes. Handshakes that began before have a while to end, and what is queued then is kept for the doors.
    fn hand_over(&self) {
        let _ = listens(&self.listener, 0);
        wait_for(NO_SOCKET, INPUT, HAND_OVER);
        for _ in 0..MOST_HELD {
            if !wait_for(self.raw_fd(), INPUT, 0) {
                return;
            }
            match self.listener.accept() {
                Ok((stream, _)) => self.held.hold(stream),
                Err(_) => return,
            }
        }
    }

    pub(crate) fn counters(&self) -> &PortCounters {
        &self.counters
    }

    pub(crate) fn limits(&self) -> &TcpLimits {
        &self.limits
    }

    pub(crate) fn raw_fd(&self) -> RawFd {
        self.listener.as_raw_fd()
    }

    pub(crate) fn is_closed(&self) -> bool {
        self.closed.load(Ordering::SeqCst)
    }

    pub(crate) fn shares_port(&self) -> bool {
        self.shares_port
    }

    /// Whether nothing is accepted any more. What was accepted for doors is held then.
    pub(crate) fn is_ended(&self) -> bool {
        self.ended.load(Ordering::SeqCst)
    }

    /// A connection that was accepted for a door.
    pub(crate) fn held_conn(&self) -> Option<TcpStream> {
        self.held.take()
    }

    /// A door waits, for the first time or not.
    pub(crate) fn mark_running(&self, first: bool) {
        self.running.fetch_add(u64::from(first), Ordering::SeqCst);
    }

    /// Waits until it is open or closed.
    pub(crate) fn wait_until_open(&self, rt: &impl rt::Clock) {
        for _ in 0..MOST_TURNS {
            if self.is_open() || self.is_closed() {
                return;
            }
            thread::sleep(rt, Duration::from_millis(OPEN_INTERVAL));
        }
    }

    // The moment at which it was seen to be closed, in milliseconds.
    fn closed_since(&self, rt: &impl rt::Clock) -> u64 {
        let now = millis_now(rt).max(1);
        let swapped = self
            .closed_at
            .compare_exchange(0, now, Ordering::SeqCst, Ordering::SeqCst);
        match swapped {
            Ok(_) => now,
            Err(since) => since,
        }
    }

    /// Whether it is closed. The time of those who go on begins where somebody sees it first.
    pub(crate) fn is_seen_closed(&self, rt: &impl rt::Clock) -> bool {
        let closed = self.is_closed();
        if closed {
            self.closed_since(rt);
        }
        closed
    }

    // Whether `shutdown_timeout` has passed since this moment.
    fn is_timed_out(&self, rt: &impl rt::Clock, since: u64) -> bool {
        millis_now(rt).saturating_sub(since) > self.limits.shutdown_timeout
    }

    /// Whether it was closed so long ago that requests in progress don't go on.
    pub(crate) fn is_past_shutdown(&self, rt: &impl rt::Clock) -> bool {
        self.is_closed() && self.is_timed_out(rt, self.closed_since(rt))
    }

    /// Whether it is closed, and the last connection was handed back so long ago that nobody dials without a client.
    pub(crate) fn is_past_end(&self, rt: &impl rt::Clock) -> bool {
        if !self.is_closed() || self.counters.open() > 0 {
            return false;
        }
        let handed_back_at = self.handed_back_at.load(Ordering::SeqCst);
        self.is_timed_out(rt, self.closed_since(rt).max(handed_back_at))
    }

    /// A connection was handed back, which ended so.
    pub(crate) fn conn_has_ended(&self, rt: &impl rt::Clock, how: ConnEnd) {
        self.handed_back_at.store(millis_now(rt), Ordering::SeqCst);
        self.counters.conn_has_ended(how);
    }

    /// Waits for the next connection, for `wake_interval` at most.
    pub(crate) fn accept(&self) -> io::Result<(TcpStream, SocketAddr)> {
        self.free_bays.fetch_add(1, Ordering::SeqCst);
        self.room_was_made();
        let accepted = self.listener.accept();
        self.free_bays.fetch_sub(1, Ordering::SeqCst);
        accepted
    }

    /// Whether a connection waits that no free bay will take.
    pub(crate) fn is_crowded(&self) -> bool {
        self.free_bays.load(Ordering::SeqCst) == 0 && wait_for(self.raw_fd(), INPUT, 0)
    }

    /// Whether a connection waits that no free bay will take, and the caller is the one that makes room for it.
    pub(crate) fn needs_room(&self) -> bool {
        if self.free_bays.load(Ordering::SeqCst) > 0
            || self.making_room.swap(true, Ordering::SeqCst)
        {
            return false;
        }
        let needed = wait_for(self.raw_fd(), INPUT, 0);
        if !needed {
            self.room_was_made();
        }
        needed
    }

    /// A bay is free again, or takes no connections any more.
    pub(crate) fn room_was_made(&self) {
        self.making_room.store(false, Ordering::SeqCst);
    }
}

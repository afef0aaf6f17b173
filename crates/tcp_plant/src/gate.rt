use crate::request_counts::RequestCounts;
use crate::sink_share::SinkShare;
use crate::unreached::Unreached;
use front_base::Address;
use std::alloc::{AllocError, Global};
use std::io;
use std::net::{Net, TcpListener, TcpStream};
use std::sync::atomic::{AtomicBool, AtomicI32, AtomicU64, Ordering};
use system_errors::number_of;
use tcp_ports::{DialFault, PortCounts, ServedClient, SharedListener, TcpLimits};

/// What the bays of a run share: the listening socket, whom each of them serves, and what became of the lines of each sink. It
/// is made before its plant, which borrows it, and in an `Arc` it is a handle for whoever opens and closes it from another thread.
#[derive(Drop)]
pub struct TcpGate {
    pub(crate) listener: SharedListener,
    clients: Vec<ServedClient>,
    // That of a dial that serves no bay.
    pub(crate) nobody: ServedClient,
    pub(crate) requests: RequestCounts,
    pub(crate) unreached: Unreached,
    pub(crate) log: SinkShare,
    pub(crate) hook: SinkShare,
    // Why links to backends fail, which their replies say.
    pub(crate) backends: DialFault,
    // How many drainers have rested.
    pub(crate) drainers: AtomicU64,
    closed: AtomicBool,
    // One more than how many threads ran when the start was given up, 0 where it wasn't.
    gave_up: AtomicU64,
    // Why it could not listen, by the system's number, 0 where nothing failed.
    open_fault: AtomicI32,
}

// Whom each bay serves: nobody yet.
fn clients_of(alloc: Global, bays: u16) -> Result<Vec<ServedClient>, AllocError> {
    let mut clients = Vec::new(alloc);
    for _ in 0..bays {
        clients.push(ServedClient::new())?;
    }
    Ok(clients)
}

impl TcpGate {
    /// Takes this address for so many bays, where port 0 is one that the system picks. Where another process listens there, the
    /// error's kind is `AddrInUse`, unless both share the port. Notices call the sinks by these names. Clients are refused before the
    /// gate is opened.
    pub fn bind<R: Net<Listener = TcpListener, Stream = TcpStream>>(
        net: &R,
        alloc: Global,
        at: Address,
        limits: TcpLimits,
        bays: u16,
        log: String,
        hook: String,
        shares_port: bool,
    ) -> io::Result<TcpGate> {
        let clients = clients_of(alloc, bays)?;
        let listener = SharedListener::bind(net, alloc, at, limits, shares_port)?;
        Ok(TcpGate {
            listener,
            clients,
            nobody: ServedClient::new(),
            requests: RequestCounts::new(),
            unreached: Unreached::new(alloc),
            log: SinkShare::new(log),
            hook: SinkShare::new(hook),
            backends: DialFault::new(),
            drainers: AtomicU64::new(0),
            closed: AtomicBool::new(false),
            gave_up: AtomicU64::new(0),
            open_fault: AtomicI32::new(0),
        })
    }

    /// Where it listens, with the port that the system picked.
    pub fn address(&self) -> Address {
        self.listener.address()
    }

    /// How many bays and drainers run in their threads.
    pub fn running(&self) -> u64 {
        let drainers = self.drainers.load(Ordering::SeqCst);
        self.listener.running().saturating_add(drainers)
    }

    /// Listens, and lets the doors give connections. Where another process has come to listen there since the address was taken, the
    /// error's kind is `AddrInUse`. After an error it is closed.
    pub fn open(&self) -> io::Result<()> {
        let opened = self.listener.open();
        if let Err(error) = &opened {
            self.open_fault.store(number_of(error), Ordering::SeqCst);
            self.close();
        }
        opened
    }

    /// Why it could not listen, by the system's number, where that is so.
    pub fn open_fault(&self) -> Option<i32> {
        match self.open_fault.load(Ordering::SeqCst) {
            0 => None,
            number => Some(number),
        }
    }

    /// What became of the connections of its doors, and of the links to backends and webhooks.
    pub fn counts(&self) -> PortCounts {
        self.listener.counts()
    }

    pub fn is_open(&self) -> bool {
        self.listener.is_open()
    }

    pub fn is_closed(&self) -> bool {
        self.closed.load(Ordering::SeqCst)
    }

    /// Closes it before it was opened, since not all threads run.
    pub fn give_up(&self) {
        let running = self.running().saturating_add(1);
        self.gave_up.store(running, Ordering::SeqCst);
        self.close();
    }

    /// How many threads ran when the start was given up, where it was.
    pub fn gave_up(&self) -> Option<u64> {
        self.gave_up.load(Ordering::SeqCst).checked_sub(1)
    }

    /// Ends the waits of all bays, idle connections and silent streams. Each door gives no connection from then on, and
    /// requests in progress have the limits' `shutdown_timeout` to finish. That of a shared port first accepts what clients have been
    /// sent to it, for a tenth of a second.
    pub fn close(&self) {
        self.closed.store(true, Ordering::SeqCst);
        self.listener.close();
    }

    /// How its requests were answered.
    pub fn requests(&self) -> &RequestCounts {
        &self.requests
    }

    /// What became of the lines of the log.
    pub fn log(&self) -> &SinkShare {
        &self.log
    }

    /// What became of the lines of the webhook.
    pub fn hook(&self) -> &SinkShare {
        &self.hook
    }

    // Whom this bay serves.
    pub(crate) fn client(&self, bay: u16) -> Option<&ServedClient> {
        self.clients.get(usize::from(bay))
    }
}

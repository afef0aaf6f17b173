ghost use Rattle.std.specs.Prelude.{◌≡◌, None, Some};
ghost use Rattle.front_plants.specs.Plants.{Failed, no_faults};
ghost use Rattle.front_plants.specs.declared.call.PlantFail.TheVariants.{Port};
ghost use Rattle.ship_plant.specs.Posts.{plant_tells};

use crate::notes::PostNotes;
use crate::share::PostShare;
use client_dial::ClientDial;
use front_base::Address;
use front_plants::{Plant, PlantFail, PlantFault, PlantPort};
use session_core::NoDiary;
use std::alloc::Global;
use std::io::Eprint;
use std::net::{Net, TcpStream};
use std::rt;
use std::sync::Wait;
use std::thread::Threads;
use tcp_plant::SystemClock;
use tcp_ports::TcpDoor;
use webhook_sink::{HookFault, WebhookSink};

// How long a post may take in all, in milliseconds: to open its link, for a stall of its body, and until its reply has come, as a server's
// default limits have it.
const POST_TIMEOUT: u64 = 95_000;

/// A plant that makes a webhook and a clock, and nothing else. It counts the calls that failed, and tells no more.
#[derive(Drop)]
pub struct ShipPlant<'b, R> {
    rt: &'b R,
    share: &'b PostShare,
    faults: u64,
    last: Option<PlantFault>,
}

impl<'b, R> ShipPlant<'b, R> {
    /// A plant that has made nothing.
    pub fn new(rt: &'b R, share: &'b PostShare) -> ShipPlant<'b, R>
        ensures { (plant_tells result).faults ≡ no_faults }
    {
        ShipPlant {
            rt,
            share,
            faults: 0,
            last: None,
        }
    }

    // Counts a call that failed.
    fn fault(&mut self, port: PlantPort, errno: i32) -> PlantFail
        ensures port { result ≡ Port (record { port = port; errno = errno }) }
        ensures counted { Failed (plant_tells self.old).faults (record { port = port; errno = errno }) (plant_tells self.new).faults }
    {
        let fault = PlantFault { port, errno };
        self.faults = self.faults.saturating_add(1);
        self.last = Some(fault);
        PlantFail::Port(fault)
    }
}

impl<'b, R: Threads + Wait + Copy + Drop + Net<Stream = TcpStream> + rt::Clock + Eprint> Plant
    for ShipPlant<'b, R> {
    type Rt = R;

    type D = TcpDoor<'b, R>;

    type L = ClientDial<'b, R>;

    type K = SystemClock<'b, R>;

    type Y = NoDiary;

    type W = WebhookSink<ClientDial<'b, R>, PostNotes<'b, R>>;

    type H = WebhookSink<ClientDial<'b, R>, PostNotes<'b, R>>;

    ghost tells = { plant_tells };

    ghost opens = { record { log = None; hook = Some None; allots = λ bay. None } };

    fn boot(&mut self) -> u64 {
        0
    }

    fn allot(&mut self, _bay: u16) -> u64 {
        0
    }

    fn door(
        &mut self,
        _alloc: Global,
        _listen: Address,
        _bay: u16,
        _connections: u64,
    ) -> Result<TcpDoor<'b, R>, PlantFail> {
        Err(self.fault(PlantPort::Door, libc::EINVAL))
    }

    fn dial(&mut self, _alloc: Global, _bay: u16) -> Result<ClientDial<'b, R>, PlantFail> {
        Err(self.fault(PlantPort::Dial, libc::EINVAL))
    }

    fn clock(&mut self) -> SystemClock<'b, R> {
        SystemClock::new(self.rt)
    }

    fn diary(&mut self, _alloc: Global) -> NoDiary {
        NoDiary
    }

    fn log(
        &mut self,
        _alloc: Global,
        _path: &str,
    ) -> Result<WebhookSink<ClientDial<'b, R>, PostNotes<'b, R>>, PlantFail> {
        Err(self.fault(PlantPort::Log, libc::EINVAL))
    }

    fn hook(
        &mut self,
        alloc: Global,
        url: &str,
    ) -> Result<WebhookSink<ClientDial<'b, R>, PostNotes<'b, R>>, PlantFail> {
        let dial = ClientDial::new(self.rt, self.share.error(), POST_TIMEOUT);
        match WebhookSink::start(alloc, url, dial, PostNotes::new(self.rt, self.share)) {
            Ok(hook) => Ok(hook),
            Err(HookFault::BadUrl) => Err(self.fault(PlantPort::Hook, libc::EINVAL)),
            Err(HookFault::NoMemory) => Err(PlantFail::NoMemory),
        }
    }
}

ghost use Rattle.std.specs.Prelude.{◌≡◌, None, Some, IfOk};
ghost use Rattle.front_plants.specs.Plants.{Failed, no_faults};
ghost use Rattle.front_plants.specs.declared.call.PlantFail.TheVariants.{Port};
ghost use Rattle.front_plants.specs.declared.plant.TheConstants.{MOST_ALLOTTED};
ghost use Rattle.tcp_plant.specs.Handles.{plant_tells};

use crate::clock::SystemClock;
use crate::gate::TcpGate;
use crate::log_file::LogFile;
use crate::sink_diary::SinkDiary;
use crate::sink_notes::SinkNotes;
use front_base::Address;
use front_plants::{MOST_ALLOTTED, Plant, PlantFail, PlantFault, PlantPort};
use log_sink::LogSink;
use std::alloc::Global;
use std::fs::File;
use std::io::{Eprint, Print};
use std::net::{Net, TcpStream};
use std::random::RandomSource;
use std::sync::Wait;
use std::thread::Threads;
use std::{io, rt};
use system_errors::number_of;
use tcp_ports::{TcpDial, TcpDoor};
use webhook_sink::{HookFault, WebhookSink};

/// A plant whose handles are sockets, files and the system's clock. It counts the calls whose port failed, knows the last of
/// these, and tells no more.
#[derive(Drop)]
pub struct TcpPlant<'b, R> {
    rt: &'b R,
    gate: &'b TcpGate,
    boot: u64,
    // How many doors it made.
    doors: u64,
    faults: u64,
    last: Option<PlantFault>,
}

// A word of the system's chance.
fn boot_word<R: RandomSource>(rt: &R) -> io::Result<u64> {
    let mut bytes = [0u8; 8];
    rt.fill_bytes(&mut bytes)?;
    Ok(u64::from_le_bytes(bytes))
}

impl<'b, R> TcpPlant<'b, R> {
    /// A plant over this gate, with a boot word of the system's chance.
    pub fn new(rt: &'b R, gate: &'b TcpGate) -> io::Result<TcpPlant<'b, R>>
    where
        R: RandomSource,
        ensures { IfOk result (λ plant. (plant_tells plant).faults ≡ no_faults) }
    {
        Ok(TcpPlant {
            rt,
            gate,
            boot: boot_word(rt)?,
            doors: 0,
            faults: 0,
            last: None,
        })
    }

    // Counts a call whose port failed.
    fn fault(&mut self, port: PlantPort, errno: i32) -> PlantFail
        ensures port { result ≡ Port (record { port = port; errno = errno }) }
        ensures counted { Failed (plant_tells self.old).faults (record { port = port; errno = errno }) (plant_tells self.new).faults }
    {
        let fault = PlantFault { port, errno };
        self.faults = self.faults.saturating_add(1);
        self.last = Some(fault);
        PlantFail::Port(fault)
    }
}

impl<
    'b,
    R: Threads
        + Wait
        + Copy
        + Drop
        + Net<Stream = TcpStream>
        + rt::Clock
        + rt::Files<File = File>
        + Print
        + Eprint,
> Plant for TcpPlant<'b, R> {
    type Rt = R;

    type D = TcpDoor<'b, R>;

    type L = TcpDial<'b, R>;

    type K = SystemClock<'b, R>;

    type Y = SinkDiary<'b, R>;

    type W = LogSink<LogFile<'b, R>, SinkNotes<'b, R>>;

    type H = WebhookSink<TcpDial<'b, R>, SinkNotes<'b, R>>;

    ghost tells = { plant_tells };

    ghost opens = { record { log = None; hook = Some None; allots = λ bay. Some MOST_ALLOTTED } };

    fn boot(&mut self) -> u64 {
        self.boot
    }

    fn allot(&mut self, _bay: u16) -> u64 {
        MOST_ALLOTTED
    }

    /// The door of this bay, at the gate's own address. Another address is a fault, as not one of this machine, and so is a bay past those
    /// of the gate, as an invalid argument.
    fn door(
        &mut self,
        _alloc: Global,
        listen: Address,
        bay: u16,
        connections: u64,
    ) -> Result<TcpDoor<'b, R>, PlantFail> {
        let gate = self.gate;
        self.doors = self.doors.saturating_add(1);
        if listen != gate.address() {
            return Err(self.fault(PlantPort::Door, libc::EADDRNOTAVAIL));
        }
        match gate.client(bay) {
            Some(client) => Ok(TcpDoor::new(self.rt, &gate.listener, client, connections)),
            None => Err(self.fault(PlantPort::Door, libc::EINVAL)),
        }
    }

    /// The links of this bay end with the client that its door gave. A bay past those of the gate is a fault, as an invalid argument.
    fn dial(&mut self, _alloc: Global, bay: u16) -> Result<TcpDial<'b, R>, PlantFail> {
        let gate = self.gate;
        match gate.client(bay) {
            Some(client) => Ok(TcpDial::new(self.rt, &gate.listener, client, &gate.backends)),
            None => Err(self.fault(PlantPort::Dial, libc::EINVAL)),
        }
    }

    /// The clocks that are asked for before the first door are those of drainers.
    fn clock(&mut self) -> SystemClock<'b, R> {
        if self.doors == 0 {
            SystemClock::of_drainer(self.rt, &self.gate.drainers)
        } else {
            SystemClock::new(self.rt)
        }
    }

    fn diary(&mut self, alloc: Global) -> SinkDiary<'b, R> {
        SinkDiary::new(self.rt, alloc, self.gate)
    }

    /// The log of this path, as `LogFile::open` has it.
    fn log(
        &mut self,
        alloc: Global,
        path: &str,
    ) -> Result<LogSink<LogFile<'b, R>, SinkNotes<'b, R>>, PlantFail> {
        let share = &self.gate.log;
        let file = match LogFile::open(self.rt, alloc, path, share) {
            Ok(file) => file,
            Err(error) => return Err(self.fault(PlantPort::Log, number_of(&error))),
        };
        match LogSink::start(alloc, file, SinkNotes::new(self.rt, share)) {
            Ok(log) => Ok(log),
            Err(_) => Err(PlantFail::NoMemory),
        }
    }

    /// The webhook at this URL. One that no webhook can have is a fault, as an invalid argument.
    fn hook(
        &mut self,
        alloc: Global,
        url: &str,
    ) -> Result<WebhookSink<TcpDial<'b, R>, SinkNotes<'b, R>>, PlantFail> {
        let gate = self.gate;
        let share = &gate.hook;
        let dial = TcpDial::new(self.rt, &gate.listener, &gate.nobody, &share.dial_fault);
        match WebhookSink::start(alloc, url, dial, SinkNotes::new(self.rt, share)) {
            Ok(hook) => Ok(hook),
            Err(HookFault::BadUrl) => Err(self.fault(PlantPort::Hook, libc::EINVAL)),
            Err(HookFault::NoMemory) => Err(PlantFail::NoMemory),
        }
    }
}

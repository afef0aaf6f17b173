ghost use Rattle.std.specs.Prelude.{◌≡◌, [], ℕ, Some, IfOk, option_map, slice_get};
ghost use Rattle.std.specs.List.{All};
ghost use Rattle.front_plants.specs.Unused.{IsUnusedDoor, IsUnusedDial, IsUnusedSink};

use crate::call::{PlantCall, PlantFail, PlantPort};
use crate::call_notes::CallNotes;
use crate::failures::Failures;
use crate::parts::{MemParts, NotesRoom};
use crate::plant::{MOST_ALLOTTED, Plant};
use crate::unused::{UnusedDials, UnusedDoors, UnusedSinks};
use front_base::{Address, Moment, NoMemory, Text};
use front_ports::{MemBytes, MemClock, MemDial, MemDoor};
use log_sink::LogSink;
use session_core::MemDiary;
use std::alloc::Global;
use std::marker::PhantomData;
use std::sync::Wait;
use std::thread::Threads;
use truncate_backend::MemNotes;
use webhook_sink::{HookFault, WebhookSink};

/// A plant whose handles are in memory. It makes them of the parts that it was given, tells its calls, up to
/// `MOST_NOTED_CALLS` of them, and what is due to each bay.
#[derive(Drop)]
pub struct MemPlant<R> {
    boot: u64,
    allots: Vec<u64>,
    doors: UnusedDoors,
    dials: UnusedDials,
    logs: UnusedSinks,
    hooks: UnusedDials,
    start: Moment,
    step: u64,
    room: NotesRoom,
    failures: Failures,
    noted: CallNotes,
    handle: PhantomData<R>,
}

impl<R> MemPlant<R> {
    ghost use Rattle.front_ports.specs.MemoryDoor.{door_left};
    ghost use Rattle.front_plants.specs.MemoryPlant.{plant_tells, plant_door, plant_boot, plant_allots};
    ghost use Rattle.front_plants.specs.MemoryPlant.{plant_dials, plant_logs, plant_hooks, plant_start, plant_step};
    ghost use Rattle.front_plants.specs.MemoryPlant.{plant_room, plant_fails, plant_calls};
    ghost use Rattle.front_plants.specs.Plants.{no_faults};
    ghost use Rattle.front_plants.specs.Rooms.{notes_room};

    /// A plant that makes its handles of these parts. The handle says in which threads a run over it goes.
    pub fn new(_rt: &R, alloc: Global, parts: MemParts) -> Result<MemPlant<R>, NoMemory>
        requires doors { All IsUnusedDoor parts.doors.items }
        requires dials { All IsUnusedDial parts.dials.items }
        requires logs { All IsUnusedSink parts.logs.items }
        requires hooks { All IsUnusedDial parts.hooks.items }
        ensures made { IfOk result (λ plant. (plant_tells plant).made ≡ Some []) }
        ensures faults { IfOk result (λ plant. (plant_tells plant).faults ≡ no_faults) }
        ensures doors { IfOk result (λ plant. (bay : ℕ) → plant_door plant bay ≡ slice_get parts.doors.items bay) }
        ensures due { IfOk result (λ plant. (bay : ℕ) →
            (plant_tells plant).due bay ≡ option_map door_left (slice_get parts.doors.items bay)) }
        ensures answers { IfOk result (λ plant.
            (plant_boot plant ≡ parts.boot) × (plant_allots plant ≡ parts.allots.items)) }
        ensures dials { IfOk result (λ plant. plant_dials plant ≡ parts.dials.items) }
        ensures logs { IfOk result (λ plant. plant_logs plant ≡ parts.logs.items) }
        ensures hooks { IfOk result (λ plant. plant_hooks plant ≡ parts.hooks.items) }
        ensures clocks { IfOk result (λ plant.
            (plant_start plant ≡ parts.start) × (plant_step plant ≡ parts.step)) }
        ensures room { IfOk result (λ plant. plant_room plant ≡ notes_room parts.room) }
        ensures fails { IfOk result (λ plant.
            (plant_fails plant ≡ parts.fails.items) × (plant_calls plant ≡ 0)) }
    {
        Ok(MemPlant {
            boot: parts.boot,
            allots: parts.allots,
            doors: UnusedDoors::new(alloc, parts.doors)?,
            dials: UnusedDials::new(alloc, parts.dials)?,
            logs: UnusedSinks::new(alloc, parts.logs)?,
            hooks: UnusedDials::new(alloc, parts.hooks)?,
            start: parts.start,
            step: parts.step,
            room: parts.room,
            failures: Failures::new(parts.fails),
            noted: CallNotes::new(alloc)?,
            handle: PhantomData,
        })
    }

    /// Its calls, in order, where they are told.
    pub fn calls(&self) -> Option<&[PlantCall]>
        ensures { option_map (λ calls. calls.now) result ≡ (plant_tells self.now).made }
    {
        self.noted.calls()
    }
}

impl<R: Threads + Wait + Copy + Drop> Plant for MemPlant<R> {
    ghost use Rattle.std.specs.Prelude.{◌≡◌, ◌≢◌, ◌≤◌, ◌⊎◌, [], ◌∷◌, ℕ, None, Some, Err, IfOk, IfSome, OnErr, OnOk, IsFalse, IsTrue, drop};
    ghost use Rattle.front_ports.specs.Memory.{bytes_written};
    ghost use Rattle.front_ports.specs.MemoryClock.{clock_start, clock_step, clock_calls, clock_given, clock_last};
    ghost use Rattle.front_ports.specs.MemoryDial.{dial_calls, dial_faults, dial_link_faults};
    ghost use Rattle.front_ports.specs.MemoryDoor.{door_left, door_given, door_closes, door_faults};
    ghost use Rattle.front_ports.specs.Scripts.{next_count};
    ghost use Rattle.log_sink.specs.Logs.{log_notes, log_out};
    ghost use Rattle.session_core.specs.Diaries.{noted};
    ghost use Rattle.truncate_backend.specs.MemoryNotes.{noted_room};
    ghost use Rattle.webhook_sink.specs.Hooked.{hook_dial, hook_notes, hook_url};
    ghost use Rattle.webhook_sink.specs.Hooks.{hook_named};
    ghost use Rattle.front_plants.specs.Fresh.{IsNewClock, IsNewDial, IsNewDoor, IsNewSink, log_opens, hook_opens};
    ghost use Rattle.front_plants.specs.MemoryPlant.{plant_tells, plant_boot, plant_allots, allotment_in};
    ghost use Rattle.front_plants.specs.MemoryPlant.{plant_door, plant_dials, plant_logs, plant_hooks};
    ghost use Rattle.front_plants.specs.MemoryPlant.{plant_start, plant_step, plant_room};
    ghost use Rattle.front_plants.specs.MemoryPlant.{plant_fails, plant_calls, plant_will_fail};
    ghost use Rattle.front_plants.specs.MemoryPlant.{OnlyNotes, OnlyDoors, OnlyDials, OnlyLogs, OnlyHooks};
    ghost use Rattle.front_plants.specs.MemorySinks.{mem_log_tells, mem_hook_tells, told_openings};
    ghost use Rattle.front_plants.specs.Noted.{LosesPast};
    ghost use Rattle.front_plants.specs.Plants.{Called, Opened, HasCause, IfPort};
    ghost use Rattle.front_plants.specs.declared.failures.TheConstants.{LISTED_ERRNO};
    ghost use Rattle.front_plants.specs.declared.call.PlantCall.TheVariants as calls;
    ghost use Rattle.front_plants.specs.declared.call.PlantPort.TheVariants as ports;
    ghost use Rattle.front_plants.specs.declared.plant.TheConstants.{MOST_ALLOTTED};

    type Rt = R;

    type D = MemDoor;

    type L = MemDial;

    type K = MemClock;

    type Y = MemDiary;

    type W = LogSink<MemBytes, MemNotes>;

    type H = WebhookSink<MemDial, MemNotes>;

    ghost tells = { plant_tells };

    ghost opens = { told_openings };

    fn boot(&mut self) -> u64
        ensures called { Called (plant_tells self.old) (calls.Boot result ∷ []) (plant_tells self.new) }
        ensures faults { (plant_tells self.new).faults ≡ (plant_tells self.old).faults }

        // Which word it is, and how long calls are told.
        ensures answer { result ≡ plant_boot self.old }
        ensures told { LosesPast (plant_tells self.old).made (plant_tells self.new).made }
        ensures rest { OnlyNotes self.old self.new }
    {
        self.noted.note(PlantCall::Boot(self.boot));
        self.boot
    }

    fn allot(&mut self, bay: u16) -> u64
        ensures most { result ≤ MOST_ALLOTTED }
        ensures fixed { IfSome (told_openings.allots bay) (λ allotment. result ≡ allotment) }
        ensures called { Called (plant_tells self.old) (calls.Allot bay result ∷ []) (plant_tells self.new) }
        ensures faults { (plant_tells self.new).faults ≡ (plant_tells self.old).faults }

        ensures answer { result ≡ allotment_in (plant_allots self.old) bay }
        ensures told { LosesPast (plant_tells self.old).made (plant_tells self.new).made }
        ensures rest { OnlyNotes self.old self.new }
    {
        let allotment = self
            .allots
            .get(bay as usize)
            .copied()
            .unwrap_or(0)
            .min(MOST_ALLOTTED);
        self.noted.note(PlantCall::Allot(bay, allotment));
        allotment
    }

    fn door(
        &mut self,
        _alloc: Global,
        listen: Address,
        bay: u16,
        connections: u64,
    ) -> Result<MemDoor, PlantFail>
        ensures called { Opened (plant_tells self.old) bay (calls.Door listen bay connections ∷ []) (plant_tells self.new) }
        ensures cause { HasCause (plant_tells self.old).faults result (plant_tells self.new).faults }
        ensures at { IfPort result (λ fault. fault.port ≡ ports.Door) }
        ensures fresh { IfOk result (λ door.
            IsNewDoor (Some (door_given door)) (door_closes door) (door_faults door)) }
        ensures due { IfOk result (λ door. Some (door_left door) ≡ (plant_tells self.old).due bay) }

        // It is that of the bay, which has no other one.
        ensures door { IfOk result (λ door. plant_door self.old bay ≡ Some door) }
        ensures gone { OnOk result (plant_door self.new bay ≡ None) }
        ensures others { (other : ℕ) → other ≢ bay → plant_door self.new other ≡ plant_door self.old other }
        ensures kept { OnErr result (plant_door self.new bay ≡ plant_door self.old bay) }

        // Which calls fail, and how long they are told.
        ensures fails { OnErr result (IsTrue (plant_will_fail self.old) ⊎ (plant_door self.old bay ≡ None)) }
        ensures no_memory { result ≢ Err PlantFail.NoMemory }
        ensures reason { IfPort result (λ fault. fault.errno ≡ LISTED_ERRNO) }
        ensures opens { OnOk result (IsFalse (plant_will_fail self.old)) }
        ensures counted { plant_calls self.new ≡ next_count (plant_calls self.old) }
        ensures setting { plant_fails self.new ≡ plant_fails self.old }
        ensures told { LosesPast (plant_tells self.old).made (plant_tells self.new).made }
        ensures rest { OnlyDoors self.old self.new }
    {
        self.noted.note(PlantCall::Door(listen, bay, connections));
        if self.failures.count_call() {
            return Err(self.failures.fault(PlantPort::Door));
        }
        match self.doors.take(bay) {
            Some(door) => Ok(door),
            None => Err(self.failures.fault(PlantPort::Door)),
        }
    }

    fn dial(&mut self, _alloc: Global, bay: u16) -> Result<MemDial, PlantFail>
        ensures called { Called (plant_tells self.old) (calls.Dial bay ∷ []) (plant_tells self.new) }
        ensures cause { HasCause (plant_tells self.old).faults result (plant_tells self.new).faults }
        ensures at { IfPort result (λ fault. fault.port ≡ ports.Dial) }
        ensures fresh { IfOk result (λ dial.
            IsNewDial (dial_calls dial) (dial_faults dial) (dial_link_faults dial)) }

        // It is the next one.
        ensures first { IfOk result (λ dial. plant_dials self.old ≡ dial ∷ plant_dials self.new) }
        ensures kept { OnErr result (plant_dials self.new ≡ plant_dials self.old) }
        ensures fails { OnErr result (IsTrue (plant_will_fail self.old) ⊎ (plant_dials self.old ≡ [])) }
        ensures no_memory { result ≢ Err PlantFail.NoMemory }
        ensures reason { IfPort result (λ fault. fault.errno ≡ LISTED_ERRNO) }
        ensures opens { OnOk result (IsFalse (plant_will_fail self.old)) }
        ensures counted { plant_calls self.new ≡ next_count (plant_calls self.old) }
        ensures setting { plant_fails self.new ≡ plant_fails self.old }
        ensures told { LosesPast (plant_tells self.old).made (plant_tells self.new).made }
        ensures rest { OnlyDials self.old self.new }
    {
        self.noted.note(PlantCall::Dial(bay));
        if self.failures.count_call() {
            return Err(self.failures.fault(PlantPort::Dial));
        }
        match self.dials.next() {
            Some(dial) => Ok(dial),
            None => Err(self.failures.fault(PlantPort::Dial)),
        }
    }

    fn clock(&mut self) -> MemClock
        ensures called { Called (plant_tells self.old) (calls.Clock ∷ []) (plant_tells self.new) }
        ensures faults { (plant_tells self.new).faults ≡ (plant_tells self.old).faults }
        ensures fresh { IsNewClock (clock_given result) (clock_last result) }

        ensures setting { (clock_start result ≡ plant_start self.old) × (clock_step result ≡ plant_step self.old) }
        ensures calls { clock_calls result ≡ 0 }
        ensures told { LosesPast (plant_tells self.old).made (plant_tells self.new).made }
        ensures rest { OnlyNotes self.old self.new }
    {
        self.noted.note(PlantCall::Clock);
        MemClock::new(self.start, self.step)
    }

    fn diary(&mut self, alloc: Global) -> MemDiary
        ensures called { Called (plant_tells self.old) (calls.Diary ∷ []) (plant_tells self.new) }
        ensures faults { (plant_tells self.new).faults ≡ (plant_tells self.old).faults }
        ensures fresh { noted result ≡ [] }

        ensures told { LosesPast (plant_tells self.old).made (plant_tells self.new).made }
        ensures rest { OnlyNotes self.old self.new }
    {
        self.noted.note(PlantCall::Diary);
        MemDiary::new(alloc)
    }

    fn log(&mut self, alloc: Global, path: &str) -> Result<LogSink<MemBytes, MemNotes>, PlantFail>
        ensures called { Called (plant_tells self.old) (calls.Log path.now ∷ []) (plant_tells self.new) }
        ensures cause { HasCause (plant_tells self.old).faults result (plant_tells self.new).faults }
        ensures at { IfPort result (λ fault. fault.port ≡ ports.Log) }
        ensures fresh { IfOk result (λ log. IsNewSink (log_opens told_openings) (mem_log_tells log)) }

        // It writes to the next of the sinks, and tells its tries while there is room for their notes.
        ensures sinks { OnOk result (plant_logs self.new ≡ drop 1 (plant_logs self.old)) }
        ensures unwritten { IfOk result (λ log. bytes_written (log_out log) ≡ []) }
        ensures observed { IfOk result (λ log. (mem_log_tells log).tries ≡ Some []) }
        ensures room { IfOk result (λ log. noted_room (log_notes log) ≡ plant_room self.old) }
        ensures fails { IfPort result (λ _. IsTrue (plant_will_fail self.old) ⊎ (plant_logs self.old ≡ [])) }
        ensures reason { IfPort result (λ fault. fault.errno ≡ LISTED_ERRNO) }
        ensures opens { OnOk result (IsFalse (plant_will_fail self.old)) }
        ensures counted { plant_calls self.new ≡ next_count (plant_calls self.old) }
        ensures setting { plant_fails self.new ≡ plant_fails self.old }
        ensures told { result ≢ Err PlantFail.NoMemory
            → LosesPast (plant_tells self.old).made (plant_tells self.new).made }
        ensures rest { OnlyLogs self.old self.new }
    {
        let listed = self.failures.count_call();
        let Ok(path) = Text::copy_of(alloc, path) else {
            self.noted.lose();
            return Err(PlantFail::NoMemory);
        };
        self.noted.note(PlantCall::Log(path));
        if listed {
            return Err(self.failures.fault(PlantPort::Log));
        }
        let Some(out) = self.logs.next() else {
            return Err(self.failures.fault(PlantPort::Log));
        };
        let Ok(notes) = self.room.notes(alloc) else {
            return Err(PlantFail::NoMemory);
        };
        match LogSink::start(alloc, out, notes) {
            Ok(log) => Ok(log),
            Err(_) => Err(PlantFail::NoMemory),
        }
    }

    fn hook(
        &mut self,
        alloc: Global,
        url: &str,
    ) -> Result<WebhookSink<MemDial, MemNotes>, PlantFail>
        ensures called { Called (plant_tells self.old) (calls.Hook url.now ∷ []) (plant_tells self.new) }
        ensures cause { HasCause (plant_tells self.old).faults result (plant_tells self.new).faults }
        ensures at { IfPort result (λ fault. fault.port ≡ ports.Hook) }
        ensures fresh { IfOk result (λ hook. IsNewSink (hook_opens told_openings url.now) (mem_hook_tells hook)) }

        // It dials with the next of the dials, posts to this URL, and tells its tries while there is room for their notes.
        ensures first { IfOk result (λ hook. plant_hooks self.old ≡ hook_dial hook ∷ plant_hooks self.new) }
        ensures uncalled { IfOk result (λ hook. dial_calls (hook_dial hook) ≡ Some []) }
        ensures url { IfOk result (λ hook. hook_named url.now ≡ Some (hook_url hook)) }
        ensures observed { IfOk result (λ hook. (mem_hook_tells hook).tries ≡ Some []) }
        ensures room { IfOk result (λ hook. noted_room (hook_notes hook) ≡ plant_room self.old) }
        ensures fails { IfPort result (λ _.
            IsTrue (plant_will_fail self.old) ⊎ ((plant_hooks self.old ≡ []) ⊎ (hook_named url.now ≡ None))) }
        ensures reason { IfPort result (λ fault. fault.errno ≡ LISTED_ERRNO) }
        ensures opens { OnOk result (IsFalse (plant_will_fail self.old)) }
        ensures counted { plant_calls self.new ≡ next_count (plant_calls self.old) }
        ensures setting { plant_fails self.new ≡ plant_fails self.old }
        ensures told { result ≢ Err PlantFail.NoMemory
            → LosesPast (plant_tells self.old).made (plant_tells self.new).made }
        ensures rest { OnlyHooks self.old self.new }
    {
        let listed = self.failures.count_call();
        let Ok(text) = Text::copy_of(alloc, url) else {
            self.noted.lose();
            return Err(PlantFail::NoMemory);
        };
        self.noted.note(PlantCall::Hook(text));
        if listed {
            return Err(self.failures.fault(PlantPort::Hook));
        }
        let Some(dial) = self.hooks.next() else {
            return Err(self.failures.fault(PlantPort::Hook));
        };
        let Ok(notes) = self.room.notes(alloc) else {
            return Err(PlantFail::NoMemory);
        };
        match WebhookSink::start(alloc, url, dial, notes) {
            Ok(hook) => Ok(hook),
            Err(HookFault::BadUrl) => Err(self.failures.fault(PlantPort::Hook)),
            Err(HookFault::NoMemory) => Err(PlantFail::NoMemory),
        }
    }
}

// The command `rehearse`.
ghost use Rattle.std.specs.Prelude.{◌≡◌, None, IfOk, map, string_bytes};
ghost use Rattle.rehearse_plan.specs.Words.{asked_by, rehearsal_of};
ghost use Rattle.command_ends.specs.Ports.{port};
ghost use Rattle.session_core.specs.Diaries.{noted};
ghost use Rattle.rehearse_runs.specs.Agrees.{Agrees};
ghost use Rattle.rehearse_runs.specs.Outcome.{Ends, PlanEnds};
ghost use Rattle.rehearse_runs.specs.Served.{WasServed};

use crate::run::rehearse;
use crate::told::tell;
use apiservice_table::TableRoutes;
use command_ends::Status;
use front_base::{MOST_LINE_BYTES, NoMemory};
use front_plants::MemPlant;
use front_ports::{ByteSink, MemBytes, MemClock, MemDial, MemDoor};
use log_sink::LogSink;
use rehearse_plan::{Rehearsal, RehearsalFault, read_rehearsal, summary};
use rehearse_setting::{Setting, rehearsal_plant, setting_of};
use serve_config::ServeConfig;
use serve_runs::Ended;
use session_core::MemDiary;
use shared_runs::{can_run, settings_of};
use std::alloc::Global;
use std::sync::Wait;
use std::thread::Threads;
use truncate_backend::MemNotes;
use webhook_sink::WebhookSink;

/// What a run over a plant in memory leaves.
pub type MemEnded = Ended<
    TableRoutes,
    MemDial,
    LogSink<MemBytes, MemNotes>,
    WebhookSink<MemDial, MemNotes>,
    MemClock,
    MemDiary,
    MemDoor,
>;

/// How a rehearsal ended.
#[derive(Drop)]
pub struct Rehearsed {
    /// `Done`, `Usage`, `Configuration`, `NoMemory` or `WriteFault`.
    pub status: Status,
    /// What the run left, with `Done` and `WriteFault`.
    pub ended: Option<MemEnded>,
    /// The number of requests that was refused, with `Configuration`.
    pub refused: Option<u64>,
}

/// What is told of it to a caller who doesn't look at the run.
#[derive(Clone, Copy, Debug, PartialEq, Eq)]
pub struct Answer {
    pub status: Status,
    pub refused: Option<u64>,
}

impl Rehearsed {
    /// Lets the run go.
    pub fn answer(self) -> Answer
        ensures { (result.status ≡ self.status) × (result.refused ≡ self.refused) }
    {
        Answer {
            status: self.status,
            refused: self.refused,
        }
    }
}

fn failed(status: Status) -> Rehearsed
    ensures { (result.status ≡ status) × (result.ended ≡ None) × (result.refused ≡ None) }
{
    Rehearsed {
        status,
        ended: None,
        refused: None,
    }
}

// The run in threads, over a plant that is made for it.
fn ran<R: Threads + Wait + Copy + Send + Sync + Drop>(
    rt: &R,
    alloc: Global,
    plan: Rehearsal,
) -> Result<MemEnded, NoMemory>
    ensures served { IfOk result (WasServed R plan.bays (asked_by plan)) }
    ensures agrees { IfOk result (Agrees noted plan.start plan.count plan.bays) }
{
    let Setting { config, routes } = setting_of(alloc, plan)?;
    let ServeConfig { words, loaded } = config;
    let (settings, _) = settings_of(&words, loaded);
    if !can_run(&words) || settings.max_event > MOST_LINE_BYTES || words.bays != plan.bays {
        return Err(NoMemory);
    }
    let mut plant = rehearsal_plant(rt, alloc, plan)?;
    rehearse::<MemPlant<R>, TableRoutes>(rt, alloc, plan, &words, settings, routes, &mut plant)
}

/// Serves the requests of a plan by its bays in threads, whose clients, delegate and webhook are in memory, and then writes the
/// summary. With `Done` all of it was written, with `WriteFault` a prefix, and with `NoMemory` nothing.
pub fn run_plan<R: Threads + Wait + Copy + Send + Sync + Drop, O: ByteSink>(
    rt: &R,
    alloc: Global,
    plan: Rehearsal,
    out: &mut O,
) -> Rehearsed
    ensures { PlanEnds R plan.bays (asked_by plan)
        (port (O.written out.old) (O.write_faults out.old) (O.written out.new) (O.write_faults out.new))
        result.ended result.status }
{
    let Ok(text) = summary(alloc, plan) else {
        return failed(Status::NoMemory);
    };
    let Ok(ended) = ran(rt, alloc, plan) else {
        return failed(Status::NoMemory);
    };
    let status = tell(out, text.as_slice());
    Rehearsed {
        status,
        ended: Some(ended),
        refused: None,
    }
}

/// The command `rehearse START COUNT`: serves COUNT requests by four bays in threads, whose clients, delegate and webhook are in
/// memory, and writes what they came to.
///
/// The kinds of requests follow one another, from START on. The words are those after the program's name. With `Done` the
/// summary was written, with `WriteFault` a prefix of it, and otherwise nothing. `NoMemory` is answered where memory ran out,
/// and for a run that did anything but what was planned. That there is no such run is tested, and not promised.
pub fn run_rehearse<R: Threads + Wait + Copy + Send + Sync + Drop, O: ByteSink>(
    rt: &R,
    alloc: Global,
    words: &Vec<String>,
    out: &mut O,
) -> Rehearsed
    ensures { Ends R (rehearsal_of (map string_bytes words.now.items))
        (port (O.written out.old) (O.write_faults out.old) (O.written out.new) (O.write_faults out.new))
        result.ended result.refused result.status }
{
    match read_rehearsal(words.as_slice()) {
        Ok(plan) => run_plan(rt, alloc, plan, out),
        Err(RehearsalFault::Usage) => failed(Status::Usage),
        Err(RehearsalFault::Count(count)) => Rehearsed {
            refused: Some(count),
            ..failed(Status::Configuration)
        },
    }
}

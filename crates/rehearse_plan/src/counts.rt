// What a rehearsal comes to.
ghost use Rattle.std.specs.Prelude.{◌≡◌, ◌≤◌, ◌++◌, ◌*◌, IfOk, OnOk};
ghost use Rattle.rehearse_plan.specs.Summary as spec;

use crate::kind::Kind;
use crate::plan::Rehearsal;
use front_base::{Bytes, Level, NoMemory, Stage};
use itoa::Buffer;
use std::alloc::{AllocError, Global};

// What is counted.
#[derive(Clone, Copy, Debug, PartialEq, Eq)]
pub enum Tally {
    /// Requests that are recorded at a level.
    Level(Level),
    /// Events of a stage.
    Stage(Stage),
    /// Requests that are answered a status.
    Status(u16),
}

fn is_same(own: Level, other: Level) -> bool
    ensures { result ≡ spec.is_same own other }
{
    match (own, other) {
        (Level::None, Level::None) => true,
        (Level::Metadata, Level::Metadata) => true,
        (Level::Request, Level::Request) => true,
        (Level::RequestResponse, Level::RequestResponse) => true,
        _ => false,
    }
}

// Whether a request of that kind has an event of that stage.
fn owes(kind: Kind, stage: Stage) -> bool
    ensures { result ≡ spec.owes kind stage }
{
    match (kind, stage) {
        (_, Stage::Panic) => false,
        (Kind::Secret, _) => false,
        (Kind::Watch, Stage::ResponseStarted) => true,
        (_, Stage::ResponseStarted) => false,
        _ => true,
    }
}

impl Tally {
    // Whether a request of that kind counts.
    fn has(self, kind: Kind) -> bool
        ensures { result ≡ spec.has self kind }
    {
        match self {
            Tally::Level(level) => is_same(level, kind.level()),
            Tally::Stage(stage) => owes(kind, stage),
            Tally::Status(status) => kind.status() == status,
        }
    }

    // How many of the requests count.
    fn count(self, plan: Rehearsal) -> u32
        ensures count { result ≡ spec.count_of self plan.start plan.count }
        ensures few { result ≤ plan.count }
    {
        let mut count = 0;
        for number in 0..plan.count {
            if self.has(Kind::at(plan.start, number)) {
                count += 1;
            }
        }
        count
    }
}

// A word, a number and a line feed.
fn push_count(out: &mut Vec<u8>, word: &str, count: u32) -> Result<(), AllocError>
    ensures { OnOk result (out.new.items ≡ out.old.items ++ spec.count_line word.now count) }
{
    out.extend_from_slice(word.as_bytes())?;
    out.extend_from_slice(b" ")?;
    out.extend_from_slice(Buffer::new().format(count).as_bytes())?;
    out.extend_from_slice(b"\n")?;
    Ok(())
}

fn push_level(out: &mut Vec<u8>, level: Level, plan: Rehearsal) -> Result<(), AllocError>
    ensures { OnOk result (out.new.items ≡ out.old.items ++ spec.level_line plan.start plan.count level) }
{
    out.extend_from_slice(b"level ")?;
    push_count(out, level.name(), Tally::Level(level).count(plan))
}

fn push_stage(out: &mut Vec<u8>, stage: Stage, plan: Rehearsal) -> Result<(), AllocError>
    ensures { OnOk result (out.new.items ≡ out.old.items ++ spec.stage_line plan.start plan.count stage) }
{
    out.extend_from_slice(b"stage ")?;
    push_count(out, stage.name(), Tally::Stage(stage).count(plan))
}

// Nothing for a status that no request is answered.
fn push_status(out: &mut Vec<u8>, status: u16, plan: Rehearsal) -> Result<(), AllocError>
    ensures { OnOk result (out.new.items ≡ out.old.items ++ spec.status_lines plan.start plan.count status) }
{
    let count = Tally::Status(status).count(plan);
    if count > 0 {
        out.extend_from_slice(b"status ")?;
        push_count(out, Buffer::new().format(status), count)?;
    }
    Ok(())
}

fn push_levels(out: &mut Vec<u8>, plan: Rehearsal) -> Result<(), AllocError>
    ensures { OnOk result (out.new.items ≡ out.old.items ++ spec.level_lines plan.start plan.count) }
{
    push_level(out, Level::None, plan)?;
    push_level(out, Level::Metadata, plan)?;
    push_level(out, Level::Request, plan)?;
    push_level(out, Level::RequestResponse, plan)
}

fn push_stages(out: &mut Vec<u8>, plan: Rehearsal) -> Result<(), AllocError>
    ensures { OnOk result (out.new.items ≡ out.old.items ++ spec.stage_lines plan.start plan.count) }
{
    push_stage(out, Stage::RequestReceived, plan)?;
    push_stage(out, Stage::ResponseStarted, plan)?;
    push_stage(out, Stage::ResponseComplete, plan)
}

fn push_statuses(out: &mut Vec<u8>, plan: Rehearsal) -> Result<(), AllocError>
    ensures { OnOk result (out.new.items ≡ out.old.items ++ spec.statuses plan.start plan.count) }
{
    push_status(out, 200, plan)?;
    push_status(out, 201, plan)?;
    push_status(out, 404, plan)?;
    push_status(out, 503, plan)
}

/// How many events there are, and so lines.
pub fn line_count(plan: Rehearsal) -> u32
    ensures count { result ≡ spec.line_count plan.start plan.count }
    ensures few { result ≤ 3 * plan.count }
{
    Tally::Stage(Stage::RequestReceived).count(plan)
        + Tally::Stage(Stage::ResponseStarted).count(plan)
        + Tally::Stage(Stage::ResponseComplete).count(plan)
}

/// What a rehearsal comes to, counted over its requests one after another.
#[tactic(auto, unfolding(crate::specs::Summary::summary))]
pub fn summary(alloc: Global, plan: Rehearsal) -> Result<Bytes, NoMemory>
    ensures { IfOk result (λ text. text ≡ spec.summary plan.start plan.count) }
{
    let mut out = Vec::new(alloc);
    push_count(&mut out, "requests", plan.count)?;
    push_levels(&mut out, plan)?;
    push_stages(&mut out, plan)?;
    push_statuses(&mut out, plan)?;
    push_count(&mut out, "lines", line_count(plan))?;
    push_count(&mut out, "dropped", 0)?;
    Ok(Bytes::new(out))
}

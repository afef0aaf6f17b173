// The plant of a rehearsal: what clients send, what the delegate replies, and how the webhook's peer answers.
ghost use Rattle.std.specs.Prelude.{◌≡◌, ◌≤◌, ◌<◌, ◌+◌, ◌*◌, [], ◌∷◌, Some, IfOk, OnOk, length, All, slice_get, option_map};
ghost use Rattle.front_plants.specs.MemoryPlant.{plant_tells};
ghost use Rattle.front_plants.specs.Plants.{no_faults};
ghost use Rattle.front_plants.specs.Unused.{IsUnusedDoor, IsUnusedDial};
ghost use Rattle.front_ports.specs.Memory.{IsUnused, duplex_left};
ghost use Rattle.front_ports.specs.MemoryDoor.{door_left};
ghost use Rattle.rehearse_setting.specs.Sent as spec;

use front_base::{Bytes, Moment, NoMemory};
use front_plants::{MemParts, MemPlant, NotesRoom};
use front_ports::{MemConn, MemDial, MemDoor, MemLink, Script};
use http_head::{push_end, push_header, push_status_line};
use rehearse_plan::{Kind, Rehearsal, bay_input, line_count, number_of, share};
use std::alloc::{AllocError, Global};

// So much room for the reply to a request, and for what is sent on of one.
const REPLY_ROOM: u64 = 2048;

// So much room for a line of an event in a post, and for the post's head.
const LINE_ROOM: u64 = 2048;

// The most lines of a batch, as `--batch-max-size` has it by default.
const BATCH_LINES: u64 = 400;

// A port that gives this and fails nowhere.
fn script(alloc: Global, input: Bytes, room: u64) -> Script
    ensures { result.input ≡ input }
{
    Script {
        input,
        room,
        sizes: Vec::new(alloc),
        read_fails: Vec::new(alloc),
        write_fails: Vec::new(alloc),
    }
}

// The door of a bay, which gives one connection.
fn door(alloc: Global, plan: Rehearsal, bay: u16) -> Result<MemDoor, NoMemory>
    requires bay { bay < plan.bays }
    ensures unused { IfOk result IsUnusedDoor }
    ensures sent { IfOk result (λ door. spec.IsSent plan.start plan.count plan.bays bay (door_left door)) }
{
    let input = bay_input(alloc, plan, bay)?;
    let room = REPLY_ROOM * u64::from(share(plan, bay));
    let conn = MemConn::new(alloc, [127, 0, 0, 1], script(alloc, input, room))?;
    Ok(MemDoor::new(alloc, vec![in alloc; conn]?, Vec::new(alloc))?)
}

fn doors(alloc: Global, plan: Rehearsal) -> Result<Vec<MemDoor>, NoMemory>
    ensures count { IfOk result (λ doors. length doors.items ≡ plan.bays) }
    ensures unused { IfOk result (λ doors. All IsUnusedDoor doors.items) }
    ensures sent { IfOk result (λ doors. spec.AreSent plan.start plan.count plan.bays doors.items) }
{
    let mut doors = Vec::new(alloc);
    for bay in 0..plan.bays {
        doors.push(door(alloc, plan, bay)?)?;
    }
    Ok(doors)
}

// A reply with this status and body.
fn reply(alloc: Global, status: u16, body: &str) -> Result<Bytes, AllocError>
    requires { 100 ≤ status × status < 1000 }
{
    let mut text = Vec::new(alloc);
    push_status_line(&mut text, status)?;
    push_header(
        &mut text,
        "Content-Length",
        itoa::Buffer::new().format(body.len()).as_bytes(),
    )?;
    push_end(&mut text)?;
    text.extend_from_slice(body.as_bytes())?;
    Ok(Bytes::new(text))
}

// A link that gives such a reply.
fn link(alloc: Global, status: u16, body: &str, room: u64) -> Result<MemLink, NoMemory>
    requires { 100 ≤ status × status < 1000 }
    ensures { IfOk result IsUnused }
{
    let input = reply(alloc, status, body)?;
    MemLink::new(alloc, script(alloc, input, room))
}

// The delegate's reply to a request of that kind, where it is sent on.
fn add_reply(links: &mut Vec<MemLink>, alloc: Global, kind: Kind) -> Result<(), NoMemory>
    requires { All IsUnused links.old.items }
    ensures { OnOk result (All IsUnused links.new.items) }
{
    if kind.is_proxied() {
        links.push(link(alloc, kind.status(), "{\"ok\":true}", REPLY_ROOM)?)?;
    }
    Ok(())
}

// The dial of a bay, by which the delegate replies to what is sent on.
fn dial(alloc: Global, plan: Rehearsal, bay: u16) -> Result<MemDial, NoMemory>
    requires bay { bay < plan.bays }
    ensures { IfOk result IsUnusedDial }
{
    let mut links = Vec::new(alloc);
    for turn in 0..share(plan, bay) {
        add_reply(
            &mut links,
            alloc,
            Kind::at(plan.start, number_of(plan, bay, turn)),
        )?;
    }
    MemDial::new(alloc, links, Vec::new(alloc))
}

// How many posts there may be: one for each whole batch, one for the last lines, and one more where lines don't come out even.
fn posts(plan: Rehearsal) -> u64
    ensures { result ≤ 200 }
{
    u64::from(line_count(plan)) / BATCH_LINES + 2
}

// The dial of the webhook, whose peer answers each post.
fn hook(alloc: Global, plan: Rehearsal) -> Result<MemDial, NoMemory>
    ensures { IfOk result IsUnusedDial }
{
    let mut links = Vec::new(alloc);
    for _ in 0..posts(plan) {
        links.push(link(alloc, 200, "", LINE_ROOM * (BATCH_LINES + 1))?)?;
    }
    MemDial::new(alloc, links, Vec::new(alloc))
}

// Three lines of each request of a bay.
fn allotments(alloc: Global, plan: Rehearsal) -> Result<Vec<u64>, AllocError> {
    let mut allots = Vec::new(alloc);
    for bay in 0..plan.bays {
        allots.push(3 * u64::from(share(plan, bay)))?;
    }
    Ok(allots)
}

fn dials(alloc: Global, plan: Rehearsal) -> Result<Vec<MemDial>, NoMemory>
    ensures unused { IfOk result (λ dials. All IsUnusedDial dials.items) }
{
    let mut dials = Vec::new(alloc);
    for bay in 0..plan.bays {
        dials.push(dial(alloc, plan, bay)?)?;
    }
    Ok(dials)
}

fn room(plan: Rehearsal) -> NotesRoom {
    let lines = u64::from(line_count(plan));
    NotesRoom {
        notes: posts(plan),
        lines,
        bytes: LINE_ROOM * lines,
    }
}

/// A plant in memory in which each bay has one connection, which sends the bay's requests of the plan and ends. The
/// delegate replies to all that is sent on, and the webhook's peer answers 200 to each post. Nothing fails but for want of memory.
/// All moments are the first one.
pub fn rehearsal_plant<R>(rt: &R, alloc: Global, plan: Rehearsal) -> Result<MemPlant<R>, NoMemory>
    ensures sent { IfOk result (λ plant. spec.IsDue plan.start plan.count plan.bays (plant_tells plant).due) }
    ensures unused { IfOk result (λ plant. ((plant_tells plant).made ≡ Some []) × ((plant_tells plant).faults ≡ no_faults)) }
{
    let parts = MemParts {
        boot: 0,
        allots: allotments(alloc, plan)?,
        doors: doors(alloc, plan)?,
        dials: dials(alloc, plan)?,
        logs: Vec::new(alloc),
        hooks: vec![in alloc; hook(alloc, plan)?]?,
        start: Moment::epoch(),
        step: 0,
        room: room(plan),
        fails: Vec::new(alloc),
    };
    MemPlant::new(rt, alloc, parts)
}

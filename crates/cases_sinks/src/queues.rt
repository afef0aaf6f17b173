ghost use Rattle.std.specs.Prelude.{◌≡◌, ◌≤◌, ◌<◌, ◌+◌, [], ◌∷◌, All, IfSome, length};
ghost use Rattle.shared_queue.specs.Lanes.{SameLane, lane_bay};
ghost use Rattle.cases_sinks.specs.Lanes.{IsOneLane, AreInOrder};
ghost use Rattle.shared_queue.specs.declared.making.TheConstants.{MOST_ALLOTTED};

use crate::words::{add_offer, add_pop, line};
use case_rows::fields;
use front_base::{Bytes, Line};
use shared_queue::{QueueEnd, QueueLane, QueueOutlet, finish, make_queue};
use std::alloc::{AllocError, Global};
use std::sync::Wait;
use std::thread;
use std::thread::{JoinHandle, Threads};
use truncate_backend::{Lane, Offer, Outlet};

// The lane and the outlet of a new queue of one lane.
fn queue<R: Wait + Copy + Drop>(
    rt: R,
    alloc: Global,
    capacity: u32,
    allots: Vec<u64>,
) -> Option<(QueueLane<R>, QueueOutlet<R>)>
    requires capacity { 0 < capacity }
    requires one { length allots.items ≡ 1 }
    requires allotted { All (λ n. n ≤ MOST_ALLOTTED) allots.items }
    ensures { IfSome result (λ own. IsOneLane own.0 own.1) }
{
    let Ok((mut lanes, outlet)) = make_queue(rt, alloc, capacity, allots) else {
        return None;
    };
    match lanes.pop() {
        Some(lane) => Some((lane, outlet)),
        None => None,
    }
}

// Offers a line, and says what came of it.
fn offer<R: Wait + Copy + Drop>(
    alloc: Global,
    out: &mut String,
    lane: &mut QueueLane<R>,
    text: &str,
)
    requires { lane_bay lane.old ≡ 0 }
    ensures { SameLane lane.old lane.new }
{
    add_offer(out, lane.offer(line(alloc, 0, text)));
}

// Offers a line or pops one, and says what came of it.
fn step<R: Wait + Copy + Drop>(
    alloc: Global,
    out: &mut String,
    lane: &mut QueueLane<R>,
    outlet: &mut QueueOutlet<R>,
    step: &str,
)
    requires { lane_bay lane.old ≡ 0 }
    ensures { lane_bay lane.new ≡ 0 }
{
    match step {
        "pop" => add_pop(out, outlet),
        text => offer(alloc, out, lane, text),
    }
}

fn steps_on<R: Wait + Copy + Drop>(
    alloc: Global,
    out: &mut String,
    lane: &mut QueueLane<R>,
    outlet: &mut QueueOutlet<R>,
    steps: &str,
)
    requires { lane_bay lane.old ≡ 0 }
{
    for row in steps.split(' ') {
        step(alloc, out, lane, outlet, row);
    }
}

// What comes of steps on a new queue of one lane.
fn run<R: Wait + Copy + Drop>(
    rt: R,
    alloc: Global,
    out: &mut String,
    capacity: u32,
    allots: Vec<u64>,
    steps: &str,
)
    requires capacity { 0 < capacity }
    requires one { length allots.items ≡ 1 }
    requires allotted { All (λ n. n ≤ MOST_ALLOTTED) allots.items }
{
    if let Some((mut lane, mut outlet)) = queue(rt, alloc, capacity, allots) {
        steps_on(alloc, out, &mut lane, &mut outlet, steps);
        drop(lane);
        drop(outlet);
    }
}

/// What steps on a queue of one lane answer. A row has whether the queue has one place, or the lane one line allotted of four
/// places, and the steps: a pop, or the line that is offered.
pub fn show_queue<R: Wait + Copy + Drop>(
    rt: R,
    alloc: Global,
    out: &mut String,
    row: &str,
) -> Result<(), AllocError> {
    let (kind, steps) = fields(row);
    match kind {
        "place" => run(rt, alloc, out, 1, vec![in alloc; 9]?, steps),
        _ => run(rt, alloc, out, 4, vec![in alloc; 1]?, steps),
    }
    Ok(())
}

// Offers three lines to a lane, and says what came of each.
fn offer_three<R: Wait + Copy + Drop>(alloc: Global, out: &mut String, lane: &mut QueueLane<R>)
    requires { lane_bay lane.old ≡ 0 }
    ensures { SameLane lane.old lane.new }
{
    offer(alloc, out, lane, "first");
    offer(alloc, out, lane, "second");
    offer(alloc, out, lane, "third");
}

// Says what three pops of an ended queue give, and how often its lane was full.
fn left<R: Wait + Copy + Drop>(out: &mut String, end: &mut QueueEnd<R>) {
    let fulls = end.fulls();
    add_pop(out, end);
    add_pop(out, end);
    add_pop(out, end);
    let _added = write!(out, " {fulls}");
}

// The lane of a queue of one lane, as `finish` takes it.
fn one_lane<R: Wait + Copy + Drop>(alloc: Global, lane: QueueLane<R>) -> Option<Vec<QueueLane<R>>>
    ensures { IfSome result (λ lanes. lanes.items ≡ lane ∷ []) }
{
    let mut lanes = Vec::new(alloc);
    match lanes.push(lane) {
        Ok(()) => Some(lanes),
        Err(_) => None,
    }
}

// Offers three lines to a queue with room for two, and ends it.
fn end_of_three<R: Wait + Copy + Drop>(
    rt: R,
    alloc: Global,
    allots: Vec<u64>,
    out: &mut String,
) -> Option<()>
    requires { allots.items ≡ 9 ∷ [] }
{
    let (mut lane, outlet) = queue(rt, alloc, 2, allots)?;
    offer_three(alloc, out, &mut lane);
    let Some(lanes) = one_lane(alloc, lane) else {
        drop(outlet);
        return None;
    };
    let mut end = finish(lanes, outlet);
    left(out, &mut end);
    drop(end);
    Some(())
}

/// What came of three offers, and, after the end of their queue, of three pops, and how often the lane was full.
pub fn show_end<R: Wait + Copy + Drop>(rt: R, alloc: Global, out: &mut String) -> Option<()> {
    let allots = vec![in alloc; 9].ok()?;
    end_of_three(rt, alloc, allots, out)
}

// Offers a line of the lane's bay until the queue takes it.
fn offer_one<R: Wait + Copy + Drop>(
    rt: &R,
    alloc: Global,
    lane: &mut QueueLane<R>,
    bay: u16,
    number: u64,
)
    requires { lane_bay lane.old ≡ bay }
    ensures { lane_bay lane.new ≡ bay }
{
    for _ in rt.forever() {
        let line = Line {
            bay,
            number,
            bytes: Bytes::new(Vec::new(alloc)),
        };
        match lane.offer(line) {
            Offer::Taken => return,
            _ => thread::yield_now(),
        }
    }
}

// Offers 200 lines of the lane's bay.
fn offer_all<R: Wait + Copy + Drop>(rt: &R, alloc: Global, lane: &mut QueueLane<R>, bay: u16)
    requires { lane_bay lane.old ≡ bay }
{
    for number in 0..200 {
        offer_one(rt, alloc, lane, bay, number);
    }
}

// Takes so many lines. Each bay's numbers come in order, from 0 on.
fn take_all<R: Wait + Copy + Drop>(rt: &R, outlet: &mut QueueOutlet<R>, lines: u64) -> [u64; 3] {
    let mut next = [0u64; 3];
    for _ in 0..lines {
        for _ in rt.forever() {
            match outlet.pop() {
                Some(line) => {
                    let bay = usize::from(line.bay);
                    if bay < 3 && next[bay] == line.number {
                        next[bay] = next[bay].saturating_add(1);
                    }
                    break;
                }
                None => thread::yield_now(),
            }
        }
    }
    next
}

// Offers all lines of the last lane of these in a thread of its own.
fn start<R: Wait + Threads + Copy + Drop + Send + Sync + 'static>(
    rt: R,
    alloc: Global,
    lanes: &mut Vec<QueueLane<R>>,
    bay: u16,
) -> Option<JoinHandle<()>>
    requires count { length lanes.old.items ≡ bay + 1 }
    requires order { AreInOrder lanes.old.items }
    ensures count { length lanes.new.items ≡ bay }
    ensures order { AreInOrder lanes.new.items }
{
    match lanes.pop() {
        Some(mut lane) => { thread::spawn(&rt, move || offer_all(&rt, alloc, &mut lane, bay)).ok() }
        None => None,
    }
}

// Lines that three threads offered, or None where there is no memory or thread for them: the next number of each bay, and
// whether a line is left.
fn take_of_three<R: Wait + Threads + Copy + Drop + Send + Sync + 'static>(
    rt: R,
    alloc: Global,
    allots: Vec<u64>,
) -> Option<([u64; 3], bool)>
    requires { allots.items ≡ 200 ∷ 200 ∷ 200 ∷ [] }
{
    let Ok((mut lanes, mut outlet)) = make_queue(rt, alloc, 4, allots) else {
        return None;
    };
    let third = start(rt, alloc, &mut lanes, 2);
    let second = start(rt, alloc, &mut lanes, 1);
    let first = start(rt, alloc, &mut lanes, 0);
    match (first, second, third) {
        (Some(first), Some(second), Some(third)) => {
            let next = take_all(&rt, &mut outlet, 600);
            first.join(&rt);
            second.join(&rt);
            third.join(&rt);
            Some((next, outlet.pop().is_some()))
        }
        _ => None,
    }
}

/// The lines of three threads come once and in order, and no other one: how many of each came, and whether one is left.
pub fn show_threads<R: Wait + Threads + Copy + Drop + Send + Sync + 'static>(
    rt: R,
    alloc: Global,
) -> Option<([u64; 3], bool)> {
    let allots = vec![in alloc; 200, 200, 200].ok()?;
    take_of_three(rt, alloc, allots)
}

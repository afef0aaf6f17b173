// The step Begin: a bay received a request.
ghost use Rattle.std.specs.Prelude.{◌≡◌, [], ℕ, Bool, List, None, IfOk, OnOk, OnErr, bytes_eq, codes, option_map};
ghost use Rattle.audit_core.specs.declared.link_note.LinkNote.TheVariants as note;
ghost use Rattle.model_requests.specs.Bare.{IsBare, bare, completed};
ghost use Rattle.model_sinks.specs.Fixed.{Keeps, setup_of};
ghost use Rattle.model_sinks.specs.Running.{TurnsTo};
ghost use Rattle.stage_event.specs.declared.facts.Kept as declared;
ghost use Rattle.model_worlds.specs.Requests as asks;
ghost use Rattle.model_worlds.specs.Steps as spec;
ghost use Rattle.model_worlds.specs.declared.state.Shared.{Shared};

use apiservice_table::Change;
use audit_core::{Errand, Judged, LinkNote, Stamp, first_facts, judge};
use front_base::{AuditId, MOST_REQUESTS, Moment, NoMemory, Stage};
use http_edge::Request;
use local_replies::{LocalErrand, LocalPaths};
use model_offers::due;
use model_sinks::CoreSetup;
use model_worlds::{Bay, Exchange, Items, Open, Phase, StepAnswer};
use policy_rules::Decision;
use stage_event::Facts;
use std::alloc::Global;

// The change that an errand asks for, if it asks for one.
fn asked_by(alloc: Global, errand: &Errand) -> Result<Option<Change>, NoMemory>
    ensures { IfOk result (λ asked. asked ≡ asks.asked_by errand.now) }
{
    match errand {
        Errand::Serve(_, LocalErrand::Write(change)) => Ok(Some(change.copy(alloc)?)),
        Errand::Serve(_, LocalErrand::Deny(_)) => Ok(None),
        Errand::Serve(_, LocalErrand::Conflict(_)) => Ok(None),
        Errand::Serve(_, LocalErrand::Look) => Ok(None),
        Errand::Serve(_, LocalErrand::Tabulate(_, _)) => Ok(None),
        Errand::Serve(_, LocalErrand::Try(_)) => Ok(None),
        Errand::Refuse(_) => Ok(None),
        Errand::Route { .. } => Ok(None),
        Errand::Other => Ok(None),
    }
}

// The exchange of a request of which these are the first facts, before the change that it asks for is noted.
fn bare_exchange(
    alloc: Global,
    request: &Request,
    decision: Decision,
    facts: Facts,
    errand: Errand,
) -> Exchange
    ensures { result ≡ record {
      level = decision.level;
      facts = facts;
      errand = errand;
      asked = None;
      is_head = bytes_eq request.now.head.method (codes "HEAD");
      managed = decision.omit_managed;
      seen = 0;
      link = note.NotUsed;
      notes = [];
    } }
{
    Exchange {
        level: decision.level,
        facts,
        errand,
        asked: None,
        is_head: request.head.method.as_str() == "HEAD",
        managed: decision.omit_managed,
        seen: 0,
        link: LinkNote::NotUsed,
        notes: Items::new(Vec::new(alloc)),
    }
}

// The exchange of a request that was judged so.
fn judged_exchange(
    alloc: Global,
    request: &Request,
    stamp: &Stamp,
    judged: Judged,
) -> Result<Exchange, NoMemory>
    ensures { IfOk result (IsBare stamp.now request.now judged) }
{
    let Judged {
        attributes,
        errand,
        decision,
    } = judged;
    match first_facts(alloc, stamp, request, attributes, decision) {
        Ok(facts) => Ok(bare_exchange(alloc, request, decision, facts, errand)),
        Err(_) => Err(NoMemory),
    }
}

fn bare_open(
    alloc: Global,
    setup: &CoreSetup,
    paths: &LocalPaths,
    request: &Request,
    id: AuditId,
    peer: [u8; 4],
    moment: Moment,
) -> Result<Open, NoMemory>
    requires { id.boot ≡ setup.now.boot }
    ensures { IfOk result (λ opened. (keep : Bool → List ℕ → declared.Kept) → Keeps keep
        → opened ≡ bare (setup_of setup.now keep) id.bay id.number
        (asks.wish_of (setup_of setup.now keep) peer request.now moment) moment) }
{
    let stamp = Stamp {
        id,
        peer,
        received: moment,
        started: moment,
        complete: moment,
    };
    let judged = judge(alloc, setup.settings(), paths, request, moment)?;
    Ok(Open {
        exchange: judged_exchange(alloc, request, &stamp, judged)?,
        phase: Phase {
            found: false,
            failed: false,
            decided: false,
            started: None,
            finished: false,
            last: moment,
        },
        waiting: Items::new(Vec::new(alloc)),
    })
}

// Notes the change that is asked for, and what waits to be offered of the arrival.
fn complete(alloc: Global, setup: &CoreSetup, opened: &mut Open) -> Result<(), NoMemory>
    ensures { OnOk result ((keep : Bool → List ℕ → declared.Kept)
        → opened.new ≡ completed (setup_of setup.now keep) opened.old) }
{
    let asked = asked_by(alloc, &opened.exchange.errand)?;
    let level = opened.exchange.level;
    let stage = Stage::RequestReceived;
    let waiting = due(alloc, setup, stage, level, &opened.exchange.facts)?;
    opened.exchange.asked = asked;
    opened.waiting = waiting;
    Ok(())
}

fn complete_current(
    alloc: Global,
    setup: &CoreSetup,
    current: &mut Option<Open>,
) -> Result<(), NoMemory>
    ensures { OnOk result ((keep : Bool → List ℕ → declared.Kept)
        → current.new ≡ option_map (completed (setup_of setup.now keep)) current.old) }
{
    match current {
        None => Ok(()),
        Some(opened) => complete(alloc, setup, opened),
    }
}

// Puts a value in the place of another.
fn put<T: Drop>(place: &mut T, value: T)
    ensures { place.new ≡ value }
{
    *place = value;
}

/// The step Begin of a bay. One that has an exchange, and one that has used all its numbers, are idle.
pub fn begin(
    alloc: Global,
    setup: &CoreSetup,
    paths: &LocalPaths,
    bay: u16,
    request: &Request,
    peer: [u8; 4],
    moment: Moment,
    b: &mut Bay,
) -> Result<StepAnswer, NoMemory>
    ensures ok { IfOk result (λ answer. (keep : Bool → List ℕ → declared.Kept) → Keeps keep → (sh : Shared)
        → TurnsTo (spec.begin (setup_of setup.now keep) bay (asks.wish_of (setup_of setup.now keep) peer request.now moment)
        moment sh b.old) sh b.old sh b.new answer) }
    ensures err { OnErr result (b.new ≡ b.old) }
{
    if b.current.is_some() {
        return Ok(StepAnswer::Idle);
    }
    if b.number >= MOST_REQUESTS {
        return Ok(StepAnswer::Idle);
    }
    let id = AuditId {
        boot: setup.boot,
        bay,
        number: b.number,
    };
    let opened = bare_open(alloc, setup, paths, request, id, peer, moment)?;
    put(&mut b.current, Some(opened));
    match complete_current(alloc, setup, &mut b.current) {
        Ok(()) => {
            b.number += 1;
            Ok(StepAnswer::Begun)
        }
        Err(fault) => {
            put(&mut b.current, None);
            Err(fault)
        }
    }
}

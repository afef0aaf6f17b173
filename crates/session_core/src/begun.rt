// What is known of a request when it was received.
ghost use Rattle.std.specs.Prelude.{◌≡◌, IfOk, OnOk, true};
ghost use Rattle.session_core.specs.Steps as spec;

use crate::diary::Diary;
use audit_core::{Errand, Judged, Settings, Stamp, first_facts, judge};
use front_base::NoMemory;
use http_edge::Request;
use local_replies::LocalPaths;
use policy_rules::Decision;
use stage_event::Facts;
use std::alloc::Global;

/// What a request wants, how it is recorded, and what is known of it.
#[derive(Drop)]
pub struct Begun {
    pub errand: Errand,
    pub decision: Decision,
    pub facts: Facts,
}

// Judges a request that was received, before any table is seen.
fn begin(
    alloc: Global,
    settings: &Settings,
    paths: &LocalPaths,
    stamp: &Stamp,
    request: &Request,
) -> Result<Begun, NoMemory>
    ensures { IfOk result (spec.IsBegun settings.now stamp.now request.now) }
{
    let judged = judge(alloc, settings, paths, request, stamp.received)?;
    let Judged {
        attributes,
        errand,
        decision,
    } = judged;
    match first_facts(alloc, stamp, request, attributes, decision) {
        Ok(facts) => Ok(Begun {
            errand,
            decision,
            facts,
        }),
        Err(_) => {
            drop(errand);
            Err(NoMemory)
        }
    }
}

/// Judges a request that was received, once the diary has room for it.
pub fn arrive<Y: Diary>(
    alloc: Global,
    settings: &Settings,
    paths: &LocalPaths,
    diary: &mut Y,
    stamp: &Stamp,
    request: &Request,
) -> Result<Begun, NoMemory>
    ensures begun { IfOk result (spec.IsBegun settings.now stamp.now request.now) }
    ensures room { OnOk result (Y.has_room diary.new ≡ true) }
    ensures same { Y.notes diary.new ≡ Y.notes diary.old }
{
    diary.ready(alloc)?;
    begin(alloc, settings, paths, stamp, request)
}

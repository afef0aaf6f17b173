// How an exchange is handled, and when it can be answered.
ghost use Rattle.std.specs.Prelude.{◌≡◌, ℕ, Bool, List, take, length, ◌≤◌, IfOk};
ghost use Rattle.apiservice_table.specs.Changes.{after};
ghost use Rattle.audit_core.specs.Routing.{handling_of};
ghost use Rattle.model_sinks.specs.Fixed.{setup_of};
ghost use Rattle.stage_event.specs.declared.facts.Kept.{Kept};
ghost use Rattle.model_worlds.specs.Steps as spec;

use apiservice_table::{Change, TableRoutes};
use audit_core::{Errand, Handling, handle_errand, one_thread_decides};
use front_base::{Moment, NoMemory};
use local_replies::{Local, LocalErrand};
use model_offers::{no_wait, table_after};
use model_sinks::CoreSetup;
use model_worlds::{Open, Shared};
use std::alloc::Global;

fn is_decided(opened: &Open) -> bool
    ensures { result ≡ spec.is_decided opened.now }
{
    opened.phase.failed
        || (opened.phase.found && (opened.exchange.asked.is_none() || opened.phase.decided))
}

/// Whether an exchange can be answered at that moment.
pub fn is_ready(opened: &Open, moment: Moment) -> bool
    ensures { result ≡ spec.is_ready opened.now moment }
{
    no_wait(&opened.waiting)
        && is_decided(opened)
        && !opened.phase.finished
        && opened.phase.last.micros() <= moment.micros()
}

/// Whether the request is sent on.
pub fn is_proxied(handling: &Handling) -> bool
    ensures { result ≡ spec.is_proxied handling.now }
{
    match handling {
        Handling::Refused(_) | Handling::Served { .. } => false,
        Handling::Proxied(_) => true,
    }
}

fn copy_local(alloc: Global, local: &Local) -> Result<Local, NoMemory>
    ensures { IfOk result (λ copy. copy ≡ local.now) }
{
    Ok(match local {
        Local::Health => Local::Health,
        Local::GroupList => Local::GroupList,
        Local::OneGroup(name) => Local::OneGroup(name.copy(alloc)?),
        Local::ResourceList => Local::ResourceList,
        Local::AllServices => Local::AllServices,
        Local::OneService(name) => Local::OneService(name.copy(alloc)?),
        Local::ServicesNamed(name) => Local::ServicesNamed(name.copy(alloc)?),
        Local::Unserved => Local::Unserved,
    })
}

fn copy_own(alloc: Global, own: &LocalErrand) -> Result<LocalErrand, NoMemory>
    ensures { IfOk result (λ copy. copy ≡ own.now) }
{
    match own {
        LocalErrand::Deny(code) => Ok(LocalErrand::Deny(*code)),
        LocalErrand::Conflict(name) => Ok(LocalErrand::Conflict(name.copy(alloc)?)),
        LocalErrand::Look => Ok(LocalErrand::Look),
        LocalErrand::Tabulate(include, moment) => Ok(LocalErrand::Tabulate(*include, *moment)),
        LocalErrand::Write(change) => Ok(LocalErrand::Write(change.copy(alloc)?)),
        LocalErrand::Try(change) => Ok(LocalErrand::Try(change.copy(alloc)?)),
    }
}

fn copy_errand(alloc: Global, errand: &Errand) -> Result<Errand, NoMemory>
    ensures { IfOk result (λ copy. copy ≡ errand.now) }
{
    match errand {
        Errand::Refuse(code) => Ok(Errand::Refuse(*code)),
        Errand::Serve(local, own) => {
            let local = copy_local(alloc, local)?;
            Ok(Errand::Serve(local, copy_own(alloc, own)?))
        }
        Errand::Route { group, version } => {
            let group = group.copy(alloc)?;
            let version = version.copy(alloc)?;
            Ok(Errand::Route { group, version })
        }
        Errand::Other => Ok(Errand::Other),
    }
}

// How an errand is handled by the rows after these changes.
fn handled_after(
    alloc: Global,
    setup: &CoreSetup,
    changes: &[Change],
    errand: &Errand,
) -> Result<Handling, NoMemory>
    ensures { IfOk result (λ handling. handling
        ≡ handling_of setup.now.settings.endpoints (after setup.now.opening changes.now) errand.now) }
{
    one_thread_decides();
    let table = table_after(alloc, setup.opening(), changes)?;
    let mut routes = TableRoutes::new(alloc, table)?;
    let errand = copy_errand(alloc, errand)?;
    let endpoints = &setup.settings().endpoints;
    let routed = handle_errand(alloc, endpoints, errand, &mut routes)?;
    Ok(routed.handling)
}

// The first so many changes, or all.
fn first_of(changes: &[Change], count: u64) -> &[Change]
    ensures { result.now ≡ take count changes.now }
{
    if count < changes.len() as u64 {
        &changes[..count as usize]
    } else {
        changes
    }
}

/// How an exchange is handled: by the rows that it saw, unless a strict sink failed.
#[tactic(auto, unfolding(model_worlds::specs::Steps::handling_at))]
pub fn handling(
    alloc: Global,
    setup: &CoreSetup,
    shared: &Shared,
    opened: &Open,
) -> Result<Handling, NoMemory>
    ensures { IfOk result (λ handling. (keep : Bool → List ℕ → Kept)
        → handling ≡ spec.handling_in (setup_of setup.now keep) shared.now opened.now) }
{
    if opened.phase.failed {
        return Ok(Handling::Refused(500));
    }
    let changes = first_of(shared.changes.as_slice(), opened.exchange.seen);
    handled_after(alloc, setup, changes, &opened.exchange.errand)
}

// What requests want.
ghost use Rattle.std.specs.Prelude.{◌≡◌, IfOk};
ghost use Rattle.request_info.specs.Selection.{selected_name};
ghost use Rattle.audit_core.specs.Errand as spec;
ghost use Rattle.audit_core.specs.Route.{route_of};

use crate::route::route_of;
use front_base::{Info, Moment, NoMemory, Text, User};
use http_head::Head;
use local_replies::{Local, LocalErrand, LocalPaths, local_errand};
use request_info::selected_name;
use std::alloc::Global;

/// What a request wants, before any table is seen.
#[derive(Debug, Drop)]
pub enum Errand {
    /// It is refused with that code.
    Refuse(u16),
    /// Something that this server does itself, on a local path.
    Serve(Local, LocalErrand),
    /// The API of a group and a version, which is a backend's.
    Route { group: Text, version: Text },
    /// A path that is none of these, which is for the server of all others.
    Other,
}

// What a request wants that is for no local path.
fn route_errand(alloc: Global, path: &str) -> Result<Errand, NoMemory>
    ensures { IfOk result (λ errand. errand ≡ spec.route_errand (route_of path.now)) }
{
    let Some(route) = route_of(alloc, path)? else {
        return Ok(Errand::Other);
    };
    Ok(Errand::Route {
        group: Text::copy_of(alloc, route.group)?,
        version: Text::copy_of(alloc, route.version)?,
    })
}

// All APIServices, or the one that a query selects by its name.
fn services_in(alloc: Global, target: &str) -> Result<Local, NoMemory>
    ensures { IfOk result (λ local. local ≡ spec.services_by (selected_name target.now)) }
{
    match selected_name(alloc, target)? {
        Some(name) => Ok(Local::ServicesNamed(name)),
        None => Ok(Local::AllServices),
    }
}

// A selector of one name narrows the list of APIServices.
fn narrowed(alloc: Global, local: Local, target: &str) -> Result<Local, NoMemory>
    ensures { IfOk result (λ narrow. narrow ≡ spec.narrowed target.now local) }
{
    match local {
        Local::Health => Ok(Local::Health),
        Local::GroupList => Ok(Local::GroupList),
        Local::OneGroup(name) => Ok(Local::OneGroup(name)),
        Local::ResourceList => Ok(Local::ResourceList),
        Local::AllServices => services_in(alloc, target),
        Local::OneService(name) => Ok(Local::OneService(name)),
        Local::ServicesNamed(name) => Ok(Local::ServicesNamed(name)),
        Local::Unserved => Ok(Local::Unserved),
    }
}

// The local path that a target is, if it is one.
#[tactic(auto, unfolding(crate::specs::Errand::local_in))]
fn local_in(
    alloc: Global,
    paths: &LocalPaths,
    path: &str,
    target: &str,
) -> Result<Option<Local>, NoMemory>
    ensures { IfOk result (λ local. local ≡ spec.local_in path.now target.now) }
{
    match paths.local(alloc, path)? {
        Some(local) => Ok(Some(narrowed(alloc, local, target)?)),
        None => Ok(None),
    }
}

/// What a request with that head, which was read at that moment, wants by its path and what its query selects, where nothing stands
/// in its way. The user is the one as whom it is served.
pub fn path_errand(
    alloc: Global,
    paths: &LocalPaths,
    info: &Info,
    head: &Head,
    moment: Moment,
    body: &[u8],
    user: &User,
) -> Result<Errand, NoMemory>
    ensures { IfOk result (λ errand. errand
        ≡ spec.path_errand info.now head.now moment body.now user.now (spec.local_in info.now.path head.now.target)) }
{
    let path = info.path.as_str();
    let Some(local) = local_in(alloc, paths, path, head.target.as_str())? else {
        return route_errand(alloc, path);
    };
    match local_errand(alloc, &local, info, head, moment, body, user) {
        Ok(errand) => Ok(Errand::Serve(local, errand)),
        Err(_) => {
            drop(local);
            Err(NoMemory)
        }
    }
}

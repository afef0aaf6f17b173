// How an errand is handled, over any routes.
ghost use Rattle.std.specs.Prelude.{◌≡◌, Some, None, IfOk, OnErr, true};
ghost use Rattle.apiservice_table.specs.Changes.{IsLater};
ghost use Rattle.service_endpoints.specs.Find.{others_of};
ghost use Rattle.audit_core.specs.Routing as spec;
ghost use Rattle.audit_core.specs.declared.errand.Errand.TheVariants as want;

use crate::errand::Errand;
use crate::routed::{Handling, Routed};
use apiservice_rows::{Row, ServiceRef};
use apiservice_table::{Routes, the_last_change_counts};
use forward_link::Target;
use front_base::{NoMemory, Text};
use local_replies::{Local, LocalErrand, serve_errand};
use service_endpoints::Endpoints;
use std::alloc::Global;

fn delegate_at(endpoints: &Endpoints) -> Handling
    ensures { result ≡ spec.backend_of endpoints.now true None }
{
    match endpoints.of(None) {
        Some(address) => Handling::Proxied(Target::Delegate { address }),
        None => Handling::Refused(503),
    }
}

fn copy_of(alloc: Global, service: &ServiceRef) -> Result<ServiceRef, NoMemory>
    ensures { IfOk result (λ copy. copy ≡ service.now) }
{
    let namespace = service.namespace.copy(alloc)?;
    let name = service.name.copy(alloc)?;
    Ok(ServiceRef {
        namespace,
        name,
        port: service.port,
    })
}

fn service_at(
    alloc: Global,
    endpoints: &Endpoints,
    service: &ServiceRef,
) -> Result<Handling, NoMemory>
    ensures { IfOk result (λ handling. handling ≡ spec.backend_of endpoints.now true (Some service.now)) }
{
    match endpoints.of(Some(service)) {
        Some(address) => Ok(Handling::Proxied(Target::Service {
            to: copy_of(alloc, service)?,
            address,
        })),
        None => Ok(Handling::Refused(503)),
    }
}

fn backend_of(alloc: Global, endpoints: &Endpoints, row: &Row) -> Result<Handling, NoMemory>
    ensures { IfOk result (λ handling. handling ≡ spec.backend_of endpoints.now row.now.available row.now.service) }
{
    match &row.service {
        None => Ok(delegate_at(endpoints)),
        Some(service) => {
            if row.available {
                service_at(alloc, endpoints, service)
            } else {
                Ok(Handling::Refused(503))
            }
        }
    }
}

fn api_of(alloc: Global, endpoints: &Endpoints, row: &Option<Row>) -> Result<Handling, NoMemory>
    ensures { IfOk result (λ handling. handling ≡ spec.api_of endpoints.now row.now) }
{
    match row {
        Some(row) => backend_of(alloc, endpoints, row),
        None => Ok(Handling::Refused(404)),
    }
}

fn route_api<R: Routes>(
    alloc: Global,
    endpoints: &Endpoints,
    group: &Text,
    version: &Text,
    routes: &mut R,
) -> Result<Routed, NoMemory>
    ensures decides { IfOk result (spec.Decides endpoints.now (want.Route group.now version.now)
        (R.opening routes.old) (R.seen routes.old) (R.own routes.old) (R.seen routes.new) (R.own routes.new)) }
    ensures kept { OnErr result (R.own routes.new ≡ R.own routes.old) }
    ensures later { IsLater (R.seen routes.old) (R.seen routes.new) }
    ensures fixed { R.opening routes.new ≡ R.opening routes.old }
{
    let row = routes.find(alloc, group.as_str(), version.as_str())?;
    match api_of(alloc, endpoints, &row) {
        Ok(handling) => Ok(Routed { row, handling }),
        Err(_) => {
            drop(row);
            Err(NoMemory)
        }
    }
}

fn route_local<R: Routes>(
    alloc: Global,
    local: Local,
    own: LocalErrand,
    routes: &mut R,
) -> Result<Routed, NoMemory>
    ensures decides { IfOk result (λ routed. (ends : _) → spec.Decides ends (want.Serve local own)
        (R.opening routes.old) (R.seen routes.old) (R.own routes.old) (R.seen routes.new) (R.own routes.new) routed) }
    ensures kept { OnErr result (R.own routes.new ≡ R.own routes.old) }
    ensures later { IsLater (R.seen routes.old) (R.seen routes.new) }
    ensures fixed { R.opening routes.new ≡ R.opening routes.old }
{
    the_last_change_counts();
    match serve_errand(alloc, &local, own, routes) {
        Ok((reply, change)) => Ok(Routed {
            row: None,
            handling: Handling::Served {
                local,
                reply,
                change,
            },
        }),
        Err(_) => {
            drop(local);
            Err(NoMemory)
        }
    }
}

fn others_at(endpoints: &Endpoints) -> Handling
    ensures { result ≡ spec.others_at (others_of endpoints.now) }
{
    match endpoints.others() {
        Some(address) => Handling::Proxied(Target::Delegate { address }),
        None => Handling::Refused(404),
    }
}

/// Decides how an errand is handled, and makes the change that it asks for where the table takes it. Where memory ran out,
/// no change was made.
pub fn handle_errand<R: Routes>(
    alloc: Global,
    endpoints: &Endpoints,
    errand: Errand,
    routes: &mut R,
) -> Result<Routed, NoMemory>
    ensures decides { IfOk result (spec.Decides endpoints.now errand
        (R.opening routes.old) (R.seen routes.old) (R.own routes.old) (R.seen routes.new) (R.own routes.new)) }
    ensures kept { OnErr result (R.own routes.new ≡ R.own routes.old) }
    ensures later { IsLater (R.seen routes.old) (R.seen routes.new) }
    ensures fixed { R.opening routes.new ≡ R.opening routes.old }
{
    match errand {
        Errand::Refuse(code) => Ok(Routed {
            row: None,
            handling: Handling::Refused(code),
        }),
        Errand::Serve(local, own) => route_local(alloc, local, own, routes),
        Errand::Route { group, version } => route_api(alloc, endpoints, &group, &version, routes),
        Errand::Other => Ok(Routed {
            row: None,
            handling: others_at(endpoints),
        }),
    }
}

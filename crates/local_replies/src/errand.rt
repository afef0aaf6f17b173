// What requests on local paths want.
ghost use Rattle.std.specs.Prelude.{◌≡◌, IfOk, codes, option_map};
ghost use Rattle.http_head.specs.Name.{first_value};
ghost use Rattle.local_replies.specs.Errand as spec;
ghost use Rattle.service_tables.specs.Include.{include_object};
ghost use Rattle.write_bodies.specs.Deletion.{deletion_of};

use crate::local::Local;
use apiservice_columns::asks_for_table;
use apiservice_rows::{Row, RowFault, read_row};
use apiservice_table::Change;
use front_base::{Bytes, Info, Moment, NoMemory, Text, User};
use http_head::{Head, has_only};
use request_info::{asks_trial, query_value};
use service_tables::{IncludeObject, include_object};
use std::alloc::Global;
use write_bodies::{Deletion, deletion_of, has_directives};

/// What a request on a local path wants, before any row is looked at.
#[derive(Debug, Drop)]
pub enum LocalErrand {
    /// It is refused with that code.
    Deny(u16),
    /// It is refused with 409: it depends on the `uid` or the `resourceVersion` of that object, and this server gives none.
    Conflict(Text),
    /// What the path names is looked up.
    Look,
    /// The APIServices that the path names are looked up, as a Table at that moment whose rows carry so much of their objects.
    Tabulate(IncludeObject, Moment),
    /// A change of the table of APIs, which the user may make.
    Write(Change),
    /// A change that the user may make, and that is tried only: a dry run.
    Try(Change),
}

fn looks(method: &str) -> bool
    ensures { result ≡ spec.looks method.now }
{
    method == "GET" || method == "HEAD"
}

fn look_only(method: &str) -> LocalErrand
    ensures { result ≡ spec.look_only method.now }
{
    if looks(method) {
        LocalErrand::Look
    } else {
        LocalErrand::Deny(405)
    }
}

fn asks_table(head: &Head) -> bool
    ensures { result ≡ spec.asks_table (first_value (codes "accept") head.now.headers) }
{
    match head.headers.first_value("accept") {
        Some(value) => asks_for_table(value),
        None => false,
    }
}

fn included(value: &Option<Text>) -> Option<IncludeObject>
    ensures { result ≡ include_object value.now }
{
    match value {
        Some(name) => include_object(Some(name.as_str())),
        None => include_object(None),
    }
}

fn table_with(include: Option<IncludeObject>, moment: Moment) -> LocalErrand
    ensures { result ≡ spec.table_with include moment }
{
    match include {
        Some(include) => LocalErrand::Tabulate(include, moment),
        None => LocalErrand::Deny(400),
    }
}

// A look at APIServices as a Table, whose rows carry of their objects what the query asks for.
fn table_for(alloc: Global, target: &str, moment: Moment) -> Result<LocalErrand, NoMemory>
    ensures { IfOk result (λ errand. errand ≡ spec.table_for target.now moment) }
{
    let value = query_value(alloc, "includeObject", target)?;
    let include = included(&value);
    drop(value);
    Ok(table_with(include, moment))
}

// A look at APIServices, in the form that is asked for.
fn seen_as(alloc: Global, head: &Head, moment: Moment) -> Result<LocalErrand, NoMemory>
    ensures { IfOk result (λ errand. errand ≡ spec.seen_as head.now moment) }
{
    if asks_table(head) {
        table_for(alloc, head.target.as_str(), moment)
    } else {
        Ok(LocalErrand::Look)
    }
}

fn look_services(alloc: Global, head: &Head, moment: Moment) -> Result<LocalErrand, NoMemory>
    ensures { IfOk result (λ errand. errand ≡ spec.look_services head.now moment) }
{
    if looks(head.method.as_str()) {
        seen_as(alloc, head, moment)
    } else {
        Ok(LocalErrand::Deny(405))
    }
}

fn is_master(user: &User) -> bool
    ensures { result ≡ spec.is_master user.now }
{
    let groups = user.groups.as_slice();
    groups
        .iter()
        .any(|group| group.as_str() == "system:masters")
}

// The row of a body, if it gives one.
fn row_in(alloc: Global, body: &[u8]) -> Result<Option<Row>, NoMemory>
    ensures { IfOk result (λ row. row ≡ spec.row_in body.now) }
{
    match read_row(alloc, body) {
        Ok(row) => Ok(Some(row)),
        Err(RowFault::NoMemory) => Err(NoMemory),
        Err(_) => Ok(None),
    }
}

fn create(alloc: Global, body: &[u8], user: &User) -> Result<LocalErrand, NoMemory>
    ensures { IfOk result (λ errand. errand ≡ spec.by_master user.now (spec.create (spec.row_in body.now))) }
{
    if !is_master(user) {
        return Ok(LocalErrand::Deny(403));
    }
    match row_in(alloc, body)? {
        Some(row) => Ok(LocalErrand::Write(Change::Create(row))),
        None => Ok(LocalErrand::Deny(422)),
    }
}

fn replace(alloc: Global, name: &str, body: &[u8], user: &User) -> Result<LocalErrand, NoMemory>
    ensures { IfOk result (λ errand.
        errand ≡ spec.by_master user.now (spec.replace name.now (spec.row_in body.now))) }
{
    if !is_master(user) {
        return Ok(LocalErrand::Deny(403));
    }
    match row_in(alloc, body)? {
        Some(row) => {
            if row.name.as_str() == name {
                return Ok(LocalErrand::Write(Change::Replace(row)));
            }
            drop(row);
            Ok(LocalErrand::Deny(422))
        }
        None => Ok(LocalErrand::Deny(422)),
    }
}

// What becomes of the APIService of a name by the options of a DELETE.
fn deleted(name: Text, deletion: Option<Deletion>) -> LocalErrand
    ensures { result ≡ spec.delete name deletion }
{
    match deletion {
        Some(Deletion::Plain) => LocalErrand::Write(Change::Delete(name)),
        Some(Deletion::Trial) => LocalErrand::Try(Change::Delete(name)),
        Some(Deletion::Conditional) => LocalErrand::Conflict(name),
        None => {
            drop(name);
            LocalErrand::Deny(400)
        }
    }
}

fn delete(alloc: Global, name: &Text, body: &[u8], user: &User) -> Result<LocalErrand, NoMemory>
    ensures { IfOk result (λ errand.
        errand ≡ spec.by_master user.now (spec.delete name.now (deletion_of body.now))) }
{
    if !is_master(user) {
        return Ok(LocalErrand::Deny(403));
    }
    let deletion = deletion_of(alloc, body)?;
    Ok(deleted(name.copy(alloc)?, deletion))
}

// The media type of a Content-Type, its parameters apart.
fn type_of(value: &[u8]) -> &[u8]
    ensures { result.now ≡ spec.type_of value.now }
{
    match value.iter().position(|b| *b == b';') {
        Some(i) => &value[..i],
        None => value,
    }
}

fn is_type(name: &str, value: Option<&[u8]>) -> bool
    ensures { result ≡ spec.is_type name.now (option_map (λ bytes. bytes.now) value.entry) }
{
    match value {
        Some(value) => has_only(type_of(value), name),
        None => false,
    }
}

fn sends(head: &Head, name: &str) -> bool
    ensures { result ≡ spec.is_type name.now (first_value (codes "content-type") head.now.headers) }
{
    is_type(name, head.headers.first_value("content-type"))
}

fn sends_patch(head: &Head) -> bool
    ensures { result ≡ spec.is_patch (first_value (codes "content-type") head.now.headers) }
{
    sends(head, "application/merge-patch+json")
        || sends(head, "application/strategic-merge-patch+json")
}

// Whether a strategic merge patch says how it is to be merged, which isn't served.
fn is_directed(alloc: Global, head: &Head, body: &[u8]) -> Result<bool, NoMemory>
    ensures { IfOk result (λ directed. directed
        ≡ spec.is_directed (first_value (codes "content-type") head.now.headers) body.now) }
{
    if !sends(head, "application/strategic-merge-patch+json") {
        return Ok(false);
    }
    has_directives(alloc, body)
}

fn patch_of(alloc: Global, name: &Text, body: &[u8]) -> Result<Change, NoMemory>
    ensures { IfOk result (λ change. change ≡ Change.Patch name.now body.now) }
{
    let patch = body.to_vec(alloc)?;
    Ok(Change::Patch {
        name: name.copy(alloc)?,
        patch: Bytes::new(patch),
    })
}

fn served_patch(
    alloc: Global,
    directed: bool,
    name: &Text,
    body: &[u8],
) -> Result<LocalErrand, NoMemory>
    ensures { IfOk result (λ errand. errand ≡ spec.served_patch directed name.now body.now) }
{
    if directed {
        Ok(LocalErrand::Deny(415))
    } else {
        Ok(LocalErrand::Write(patch_of(alloc, name, body)?))
    }
}

// A patch of the APIService of a name. What it makes of the object is read once it is known which object that is.
fn patch(
    alloc: Global,
    name: &Text,
    head: &Head,
    body: &[u8],
    user: &User,
) -> Result<LocalErrand, NoMemory>
    ensures { IfOk result (λ errand. errand ≡ spec.patch
        (spec.is_patch (first_value (codes "content-type") head.now.headers))
        (spec.is_directed (first_value (codes "content-type") head.now.headers) body.now) name.now body.now user.now) }
{
    if !sends_patch(head) {
        return Ok(LocalErrand::Deny(415));
    }
    if !is_master(user) {
        return Ok(LocalErrand::Deny(403));
    }
    let directed = is_directed(alloc, head, body)?;
    served_patch(alloc, directed, name, body)
}

// What is wanted of all APIServices.
#[tactic(auto, unfolding(crate::specs::Errand::list_errand))]
fn list_errand(
    alloc: Global,
    info: &Info,
    head: &Head,
    moment: Moment,
    body: &[u8],
    user: &User,
) -> Result<LocalErrand, NoMemory>
    ensures { IfOk result (λ errand. errand ≡ spec.list_errand info.now head.now moment body.now user.now) }
{
    if info.verb.as_str() == "watch" {
        return Ok(LocalErrand::Deny(405));
    }
    match head.method.as_str() {
        "POST" => create(alloc, body, user),
        _ => look_services(alloc, head, moment),
    }
}

// What is wanted of the APIService of a name.
#[tactic(auto, unfolding(crate::specs::Errand::name_errand))]
fn name_errand(
    alloc: Global,
    name: &Text,
    head: &Head,
    moment: Moment,
    body: &[u8],
    user: &User,
) -> Result<LocalErrand, NoMemory>
    ensures { IfOk result (λ errand. errand ≡ spec.name_errand name.now head.now moment body.now user.now) }
{
    match head.method.as_str() {
        "PUT" => replace(alloc, name.as_str(), body, user),
        "DELETE" => delete(alloc, name, body, user),
        "PATCH" => patch(alloc, name, head, body, user),
        _ => look_services(alloc, head, moment),
    }
}

// What is wanted of the list of one APIService. A selector is read of looks alone.
fn listed_errand(
    alloc: Global,
    info: &Info,
    head: &Head,
    moment: Moment,
) -> Result<LocalErrand, NoMemory>
    ensures { IfOk result (λ errand. errand ≡ spec.listed_errand info.now head.now moment) }
{
    let watches = info.verb.as_str() == "watch";
    if watches {
        Ok(LocalErrand::Deny(405))
    } else if looks(head.method.as_str()) {
        seen_as(alloc, head, moment)
    } else {
        Ok(LocalErrand::Deny(400))
    }
}

// What a request on a local path wants, whatever its query asks for.
fn asked_errand(
    alloc: Global,
    local: &Local,
    info: &Info,
    head: &Head,
    moment: Moment,
    body: &[u8],
    user: &User,
) -> Result<LocalErrand, NoMemory>
    ensures { IfOk result (λ errand.
        errand ≡ spec.asked_errand local.now info.now head.now moment body.now user.now) }
{
    match local {
        Local::Health | Local::GroupList | Local::OneGroup(_) | Local::ResourceList => {
            Ok(look_only(head.method.as_str()))
        }
        Local::AllServices => list_errand(alloc, info, head, moment, body, user),
        Local::OneService(name) => name_errand(alloc, name, head, moment, body, user),
        Local::ServicesNamed(_) => listed_errand(alloc, info, head, moment),
        Local::Unserved => Ok(LocalErrand::Deny(404)),
    }
}

// The errand of a dry run: a change that is wanted is tried only.
fn tried(errand: LocalErrand) -> LocalErrand
    ensures { result ≡ spec.tried errand }
{
    match errand {
        LocalErrand::Deny(code) => LocalErrand::Deny(code),
        LocalErrand::Conflict(name) => LocalErrand::Conflict(name),
        LocalErrand::Look => LocalErrand::Look,
        LocalErrand::Tabulate(include, moment) => LocalErrand::Tabulate(include, moment),
        LocalErrand::Write(change) => LocalErrand::Try(change),
        LocalErrand::Try(change) => LocalErrand::Try(change),
    }
}

/// What a request on a local path wants, which was read at that moment: the ages in a Table count to it. A refusal by the path
/// (404) or by the method (405, and 400 where a selector is no part of it), and one by the type of a patch (415), comes before one
/// by the user (403). At last come those by the body: 422, of a DELETE 400 and 409, and 415 of a strategic merge patch with
/// directives. What a patch makes of an object is read where the change is made. A look that asks for a Table is refused with 400
/// where its `includeObject` names no policy. A change is tried only where the query has `dryRun`, whatever its value is, or the
/// options of a DELETE ask for it.
pub fn local_errand(
    alloc: Global,
    local: &Local,
    info: &Info,
    head: &Head,
    moment: Moment,
    body: &[u8],
    user: &User,
) -> Result<LocalErrand, NoMemory>
    ensures { IfOk result (λ errand.
        errand ≡ spec.local_errand local.now info.now head.now moment body.now user.now) }
{
    let trial = asks_trial(alloc, head.target.as_str())?;
    let errand = asked_errand(alloc, local, info, head, moment, body, user)?;
    if trial { Ok(tried(errand)) } else { Ok(errand) }
}

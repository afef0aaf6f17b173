// Replies to requests on local paths.
ghost use Rattle.std.specs.Prelude.{◌≡◌, Some, None, Option, List, IfOk, OnErr};
ghost use Rattle.apiservice_rows.specs.Row.{Row};
ghost use Rattle.apiservice_table.specs.Changes as table;
ghost use Rattle.apiservice_table.specs.Changes.{after, changed, left_by, IsDue, IsLater};
ghost use Rattle.apiservice_table.specs.declared.change.ChangeFault.{ChangeFault};
ghost use Rattle.local_replies.specs.Errand.{local_errand};
ghost use Rattle.local_replies.specs.Serve as spec;

use crate::errand::{LocalErrand, local_errand};
use crate::local::Local;
use crate::looked::look;
use crate::reply::LocalReply;
use crate::status::{conflict, json_reply, refusal, success};
use crate::tabulated::tabulate;
use apiservice_rows::Row;
use apiservice_table::{Change, ChangeFault, Routes};
use change_trials::try_change;
use front_base::{Bytes, Info, Moment, NoMemory, User};
use http_head::Head;
use std::alloc::Global;

// The reply to a change that is made, but for the object that a patch leaves.
fn done(alloc: Global, change: &Change) -> Result<LocalReply, NoMemory>
    ensures { IfOk result (λ reply. reply ≡ spec.done change.now None) }
{
    match change {
        Change::Create(row) => Ok(json_reply(201, row.object.copy(alloc)?)),
        Change::Replace(row) => Ok(json_reply(200, row.object.copy(alloc)?)),
        Change::Delete(_) => success(alloc),
        Change::Patch { .. } => Ok(json_reply(200, Bytes::new(Vec::new(alloc)))),
    }
}

// The reply to a change with the object that it left, where it is a patch.
fn with_left(reply: LocalReply, left: Option<Bytes>) -> LocalReply
    ensures { (change : Change) (rows : List Row) → reply ≡ spec.done change None → left ≡ left_by change rows
        → result ≡ spec.done_in rows change }
{
    match left {
        Some(object) => {
            drop(reply);
            json_reply(200, object)
        }
        None => reply,
    }
}

// The reply to a change that the rows don't take.
fn refused(alloc: Global, fault: ChangeFault) -> Result<LocalReply, NoMemory>
    ensures reply { IfOk result (λ reply. reply ≡ spec.refused fault) }
    ensures due { IfOk result (λ _. (due : Option ChangeFault) → IsDue fault due → due ≡ Some fault) }
{
    match fault {
        ChangeFault::Exists => refusal(alloc, 409),
        ChangeFault::Missing => refusal(alloc, 404),
        ChangeFault::Full | ChangeFault::Invalid => refusal(alloc, 422),
        ChangeFault::NoMemory => Err(NoMemory),
    }
}

// A change that is about to be made, its reply, and the copy that is handed out.
struct Prepared {
    reply: LocalReply,
    made: Change,
    change: Change,
}

fn reply_and_copy(alloc: Global, change: &Change) -> Result<(LocalReply, Change), NoMemory>
    ensures { IfOk result (λ both. (both.0 ≡ spec.done change.now None) × (both.1 ≡ change.now)) }
{
    let reply = done(alloc, change)?;
    match change.copy(alloc) {
        Ok(copy) => Ok((reply, copy)),
        Err(fault) => {
            drop(reply);
            Err(fault)
        }
    }
}

fn prepare(alloc: Global, change: Change) -> Result<Prepared, NoMemory>
    ensures { IfOk result (λ it. (it.reply ≡ spec.done change None) × (it.made ≡ change) × (it.change ≡ change)) }
{
    match reply_and_copy(alloc, &change) {
        Ok((reply, made)) => Ok(Prepared {
            reply,
            made,
            change,
        }),
        Err(fault) => {
            drop(change);
            Err(fault)
        }
    }
}

// The reply to a change that the rows don't take, in the place of what was prepared.
fn instead(
    alloc: Global,
    fault: ChangeFault,
    reply: LocalReply,
    made: Change,
) -> Result<LocalReply, NoMemory>
    ensures reply { IfOk result (λ reply. reply ≡ spec.refused fault) }
    ensures due { IfOk result (λ _. (due : Option ChangeFault) → IsDue fault due → due ≡ Some fault) }
{
    drop(reply);
    drop(made);
    refused(alloc, fault)
}

// Makes a change. The reply and the copy that is handed out are made before it, so that none is made where memory runs out; the
// object that a patch leaves comes from the routes, which copy it before they make the patch.
fn write<R: Routes>(
    alloc: Global,
    change: Change,
    routes: &mut R,
) -> Result<(LocalReply, Option<Change>), NoMemory>
    ensures decided { IfOk result (λ served. spec.IsDecided change
        (R.opening routes.old) (R.seen routes.old) (R.own routes.old) (R.seen routes.new) (R.own routes.new)
        served.0 served.1) }
    ensures kept { OnErr result (R.own routes.new ≡ R.own routes.old) }
    ensures later { IsLater (R.seen routes.old) (R.seen routes.new) }
    ensures fixed { R.opening routes.new ≡ R.opening routes.old }
{
    let Prepared {
        reply,
        made,
        change,
    } = prepare(alloc, change)?;
    match routes.change(alloc, change) {
        Ok(left) => Ok((with_left(reply, left), Some(made))),
        Err(fault) => Ok((instead(alloc, fault, reply, made)?, None)),
    }
}

// The reply to a change that rows would take, with the object that it would leave.
fn taken(
    alloc: Global,
    rows: &[Row],
    change: &Change,
    left: Option<Bytes>,
) -> Result<LocalReply, NoMemory>
    requires due { table.refusal rows.now change.now ≡ None }
    requires left { left ≡ left_by change.now (changed rows.now change.now) }
    ensures { IfOk result (λ reply. reply ≡ spec.change_reply rows.now change.now (table.refusal rows.now change.now)) }
{
    match done(alloc, change) {
        Ok(reply) => Ok(with_left(reply, left)),
        Err(fault) => {
            drop(left);
            Err(fault)
        }
    }
}

// The reply to a change that rows would refuse.
fn untaken(
    alloc: Global,
    rows: &[Row],
    change: &Change,
    fault: ChangeFault,
) -> Result<LocalReply, NoMemory>
    requires { IsDue fault (table.refusal rows.now change.now) }
    ensures { IfOk result (λ reply. reply ≡ spec.change_reply rows.now change.now (table.refusal rows.now change.now)) }
{
    let reply = refused(alloc, fault)?;
    Ok(reply)
}

// The reply that a change of these rows would be given, which isn't made.
fn tried(alloc: Global, rows: &[Row], change: &Change) -> Result<LocalReply, NoMemory>
    ensures { IfOk result (λ reply. reply ≡ spec.change_reply rows.now change.now (table.refusal rows.now change.now)) }
{
    match try_change(alloc, rows, change) {
        Ok(left) => taken(alloc, rows, change, left),
        Err(fault) => untaken(alloc, rows, change, fault),
    }
}

// Tries a change: it is answered by the rows that are seen then, and not made.
fn try_out<R: Routes>(
    alloc: Global,
    change: &Change,
    routes: &mut R,
) -> Result<LocalReply, NoMemory>
    ensures reply { IfOk result (λ reply. reply ≡ spec.change_reply
        (after (R.opening routes.new) (R.seen routes.new)) change.now
        (table.refusal (after (R.opening routes.new) (R.seen routes.new)) change.now)) }
    ensures kept { R.own routes.new ≡ R.own routes.old }
    ensures later { IsLater (R.seen routes.old) (R.seen routes.new) }
    ensures fixed { R.opening routes.new ≡ R.opening routes.old }
{
    let rows = routes.list(alloc)?;
    tried(alloc, rows.as_slice(), change)
}

/// Serves what a request on a local path wants: the reply, and the change that was made, if one was. Where memory ran out,
/// no change was made. A dry run makes none, and is answered as the change would be.
pub fn serve_errand<R: Routes>(
    alloc: Global,
    local: &Local,
    errand: LocalErrand,
    routes: &mut R,
) -> Result<(LocalReply, Option<Change>), NoMemory>
    ensures served { IfOk result (λ served. spec.IsServed local.now errand
        (R.opening routes.old) (R.seen routes.old) (R.own routes.old) (R.seen routes.new) (R.own routes.new)
        served.0 served.1) }
    ensures kept { OnErr result (R.own routes.new ≡ R.own routes.old) }
    ensures later { IsLater (R.seen routes.old) (R.seen routes.new) }
    ensures fixed { R.opening routes.new ≡ R.opening routes.old }
{
    match errand {
        LocalErrand::Deny(code) => Ok((refusal(alloc, code)?, None)),
        LocalErrand::Conflict(name) => Ok((conflict(alloc, name.as_str())?, None)),
        LocalErrand::Look => Ok((look(alloc, local, routes)?, None)),
        LocalErrand::Tabulate(include, moment) => {
            Ok((tabulate(alloc, local, include, moment, routes)?, None))
        }
        LocalErrand::Write(change) => write(alloc, change, routes),
        LocalErrand::Try(change) => {
            let tried = try_out(alloc, &change, routes);
            drop(change);
            Ok((tried?, None))
        }
    }
}

/// Serves a request on a local path, which was read at that moment, and whose information is that of its head: the reply, and the change that
/// was made, if one was. A HEAD request is given the reply that GET would get, since its Content-Length is needed; its
/// body isn't to be sent. Where memory ran out, no change was made.
pub fn serve_local<R: Routes>(
    alloc: Global,
    local: &Local,
    info: &Info,
    head: &Head,
    moment: Moment,
    body: &[u8],
    user: &User,
    routes: &mut R,
) -> Result<(LocalReply, Option<Change>), NoMemory>
    ensures served { IfOk result (λ served. spec.IsServed local.now
        (local_errand local.now info.now head.now moment body.now user.now)
        (R.opening routes.old) (R.seen routes.old) (R.own routes.old) (R.seen routes.new) (R.own routes.new)
        served.0 served.1) }
    ensures kept { OnErr result (R.own routes.new ≡ R.own routes.old) }
    ensures later { IsLater (R.seen routes.old) (R.seen routes.new) }
    ensures fixed { R.opening routes.new ≡ R.opening routes.old }
{
    let errand = local_errand(alloc, local, info, head, moment, body, user)?;
    serve_errand(alloc, local, errand, routes)
}

// Replies to looks that ask for a Table.
ghost use Rattle.std.specs.Prelude.{◌≡◌, IfOk};
ghost use Rattle.apiservice_table.specs.Changes.{after, IsLater};
ghost use Rattle.local_replies.specs.Tabulated as spec;

use crate::local::Local;
use crate::looked::look;
use crate::reply::LocalReply;
use crate::status::{json_reply, refusal};
use apiservice_rows::Row;
use apiservice_table::Routes;
use front_base::{Moment, NoMemory};
use service_tables::{IncludeObject, service_table};
use std::alloc::Global;

fn table_reply(
    alloc: Global,
    rows: &[Row],
    include: IncludeObject,
    moment: Moment,
) -> Result<LocalReply, NoMemory>
    ensures { IfOk result (λ reply. reply ≡ spec.table_reply include moment rows.now) }
{
    let text = service_table(alloc, rows, include, moment)?;
    Ok(json_reply(200, text))
}

fn rows_if(alloc: Global, row: Option<Row>) -> Result<Vec<Row>, NoMemory>
    ensures { IfOk result (λ rows. rows.items ≡ spec.rows_if row) }
{
    let mut rows = Vec::new(alloc);
    if let Some(row) = row {
        rows.push(row)?;
    }
    Ok(rows)
}

// The Table of a row, or of none.
fn short_table(
    alloc: Global,
    row: Option<Row>,
    include: IncludeObject,
    moment: Moment,
) -> Result<LocalReply, NoMemory>
    ensures { IfOk result (λ reply. reply ≡ spec.table_reply include moment (spec.rows_if row)) }
{
    let rows = rows_if(alloc, row)?;
    table_reply(alloc, rows.as_slice(), include, moment)
}

// The Table of a row, or the refusal where there is none.
fn one_table(
    alloc: Global,
    row: Option<Row>,
    include: IncludeObject,
    moment: Moment,
) -> Result<LocalReply, NoMemory>
    ensures { IfOk result (λ reply. reply ≡ spec.one_table include moment row) }
{
    match row {
        Some(row) => short_table(alloc, Some(row), include, moment),
        None => refusal(alloc, 404),
    }
}

/// The reply to a look that asks for a Table at that moment, whose rows carry so much of their objects. Only APIServices have one:
/// other paths are answered as ever.
pub fn tabulate<R: Routes>(
    alloc: Global,
    local: &Local,
    include: IncludeObject,
    moment: Moment,
    routes: &mut R,
) -> Result<LocalReply, NoMemory>
    ensures reply { IfOk result (λ reply.
        reply ≡ spec.tabulated local.now include moment (after (R.opening routes.new) (R.seen routes.new))) }
    ensures later { IsLater (R.seen routes.old) (R.seen routes.new) }
    ensures kept { (R.opening routes.new ≡ R.opening routes.old) × (R.own routes.new ≡ R.own routes.old) }
{
    match local {
        Local::AllServices => {
            let rows = routes.list(alloc)?;
            table_reply(alloc, rows.as_slice(), include, moment)
        }
        Local::OneService(name) => {
            let row = routes.named(alloc, name.as_str())?;
            one_table(alloc, row, include, moment)
        }
        Local::ServicesNamed(name) => {
            let row = routes.named(alloc, name.as_str())?;
            short_table(alloc, row, include, moment)
        }
        Local::Health
        | Local::GroupList
        | Local::OneGroup(_)
        | Local::ResourceList
        | Local::Unserved => look(alloc, local, routes),
    }
}

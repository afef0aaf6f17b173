ghost use Rattle.std.specs.Prelude.{◌≡◌, IfOk};
ghost use Rattle.apiservice_table.specs.Changes.{IsLater};
ghost use Rattle.audit_core.specs.Exchange as spec;

use crate::answered::Answered;
use crate::facts::facts_of;
use crate::judged::{Judged, judge};
use crate::link_note::LinkNote;
use crate::routed::Routed;
use crate::routing::handle_errand;
use crate::settings::Settings;
use crate::stamp::Stamp;
use apiservice_table::Routes;
use front_base::NoMemory;
use http_edge::Request;
use local_replies::LocalPaths;
use std::alloc::Global;

/// Answers a request, which may change the table, where all of its moments are known, and what comes of its link, with
/// which body, if it is sent on. Where memory ran out, a change may have been made.
pub fn settle<R: Routes>(
    alloc: Global,
    settings: &Settings,
    paths: &LocalPaths,
    routes: &mut R,
    stamp: &Stamp,
    request: &Request,
    note: LinkNote,
    body: &[u8],
) -> Result<Answered, NoMemory>
    ensures settles { IfOk result (spec.Settles settings.now stamp.now request.now note body.now
        (R.opening routes.old) (R.seen routes.old) (R.own routes.old) (R.seen routes.new) (R.own routes.new)) }
    ensures later { IsLater (R.seen routes.old) (R.seen routes.new) }
    ensures fixed { R.opening routes.new ≡ R.opening routes.old }
{
    let judged = judge(alloc, settings, paths, request, stamp.received)?;
    let Judged {
        attributes,
        errand,
        decision,
    } = judged;
    let Ok(routed) = handle_errand(alloc, &settings.endpoints, errand, routes) else {
        drop(attributes);
        return Err(NoMemory);
    };
    let Routed { row, handling } = routed;
    drop(row);
    match facts_of(
        alloc, stamp, request, attributes, decision, &handling, note, body,
    ) {
        Ok(facts) => Ok(Answered {
            handling,
            decision,
            facts,
        }),
        Err(_) => {
            drop(handling);
            Err(NoMemory)
        }
    }
}

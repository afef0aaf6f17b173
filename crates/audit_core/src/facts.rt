// What is known of a request that was answered.
ghost use Rattle.std.specs.Prelude.{◌≡◌, IfOk};
ghost use Rattle.stage_event.specs.Kept.{IsKeptAs};
ghost use Rattle.audit_core.specs.Answer as answer;
ghost use Rattle.audit_core.specs.Exchange as spec;

use crate::answer::{kept_answer, status_of};
use crate::attributes::Attributes;
use crate::link_note::LinkNote;
use crate::routed::Handling;
use crate::stamp::Stamp;
use front_base::{NoMemory, Text};
use http_edge::Request;
use http_head::Headers;
use policy_rules::Decision;
use stage_event::{Facts, Kept, Show, kept_as, reply_show, request_show};
use std::alloc::Global;

// The User-Agent header that stands first, with U+FFFD for what isn't UTF-8, or nothing.
fn agent_in(alloc: Global, headers: &Headers) -> Result<Text, NoMemory>
    ensures { IfOk result (λ agent. agent ≡ spec.agent_in headers.now) }
{
    match headers.first_value("user-agent") {
        Some(value) => Ok(Text::new(String::from_utf8_lossy(alloc, value)?)),
        None => Text::copy_of(alloc, ""),
    }
}

/// What is kept of the answer that the client is sent, of which that is shown, where the link gave that body.
pub fn kept_sent(
    alloc: Global,
    show: Show,
    method: &str,
    handling: &Handling,
    note: LinkNote,
    body: &[u8],
) -> Result<Kept, NoMemory>
    ensures { IfOk result (IsKeptAs show (spec.sent_body method.now (answer.body_of handling.now note body.now))) }
{
    match show {
        Show::Nothing => Ok(Kept::NotAsked),
        Show::Whole | Show::Pruned => {
            if method == "HEAD" {
                kept_as(alloc, show, b"".as_slice())
            } else {
                kept_answer(alloc, show, handling, note, body)
            }
        }
    }
}

// What is copied of a request, and what is kept of its body.
struct Copied {
    target: Text,
    agent: Text,
    request: Kept,
}

fn copy_parts(
    alloc: Global,
    request: &Request,
    attributes: &Attributes,
    decision: Decision,
) -> Result<Copied, NoMemory>
    ensures { IfOk result (λ it. (it.target ≡ request.now.head.target)
        × (it.agent ≡ spec.agent_in request.now.head.headers)
        × spec.KeepsRequest decision attributes.now request.now it.request) }
{
    let show = request_show(decision.level, decision.omit_managed, &attributes.info);
    Ok(Copied {
        request: kept_as(alloc, show, request.body.as_slice())?,
        target: request.head.target.copy(alloc)?,
        agent: agent_in(alloc, &request.head.headers)?,
    })
}

/// The facts of a request when it was received. Its body is looked at where the decision shows it.
pub fn first_facts(
    alloc: Global,
    stamp: &Stamp,
    request: &Request,
    attributes: Attributes,
    decision: Decision,
) -> Result<Facts, NoMemory>
    ensures { IfOk result (spec.AreFirstFacts stamp.now request.now attributes decision) }
{
    match copy_parts(alloc, request, &attributes, decision) {
        Ok(
            Copied {
                target,
                agent,
                request,
            },
        ) => Ok(Facts {
            id: stamp.id,
            target,
            info: attributes.info,
            user: attributes.user,
            acting: attributes.acting,
            peer: stamp.peer,
            agent,
            status: 0,
            request,
            reply: Kept::NotAsked,
            received: stamp.received,
            started: stamp.started,
            complete: stamp.complete,
        }),
        Err(_) => {
            drop(attributes);
            Err(NoMemory)
        }
    }
}

/// The facts of a request that was handled so, whose link came to that, with that body. Bodies are looked at where the
/// decision shows them.
pub fn facts_of(
    alloc: Global,
    stamp: &Stamp,
    request: &Request,
    attributes: Attributes,
    decision: Decision,
    handling: &Handling,
    note: LinkNote,
    body: &[u8],
) -> Result<Facts, NoMemory>
    ensures { IfOk result (spec.AreFacts stamp.now request.now attributes decision
        (answer.status_of handling.now note) (answer.body_of handling.now note body.now)) }
{
    let method = request.head.method.as_str();
    let show = reply_show(decision.level, decision.omit_managed, &attributes.info);
    let mut facts = first_facts(alloc, stamp, request, attributes, decision)?;
    match kept_sent(alloc, show, method, handling, note, body) {
        Ok(reply) => {
            facts.status = status_of(handling, note);
            facts.reply = reply;
            Ok(facts)
        }
        Err(_) => {
            drop(facts);
            Err(NoMemory)
        }
    }
}

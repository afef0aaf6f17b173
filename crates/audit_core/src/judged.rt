// Who asks for what, and what a request wants.
ghost use Rattle.std.specs.Prelude.{◌≡◌, true, IfOk};
ghost use Rattle.std.specs.List.{list_any};
ghost use Rattle.request_info.specs.Request.{audit_info};
ghost use Rattle.token_users.specs.Act.{user_acting};
ghost use Rattle.audit_core.specs.Errand as spec;
ghost use Rattle.audit_core.specs.Exchange.{IsAsked, IsJudged};

use crate::attributes::Attributes;
use crate::errand::{Errand, path_errand};
use crate::settings::Settings;
use crate::unread::is_unread;
use front_base::{Info, Moment, NoMemory, User};
use http_edge::Request;
use http_head::{Header, has_only};
use local_replies::LocalPaths;
use policy_rules::{Decision, decide};
use request_info::{InfoFault, audit_info, info};
use std::alloc::Global;
use token_users::{Act, Who, act, who};

/// What a request asks for, and whether that alone is refused: its target, or a selector that isn't read.
#[derive(Debug, Drop)]
pub struct Asked {
    pub info: Info,
    pub refused: bool,
}

// What is recorded of a request whose target is refused.
fn refused(alloc: Global, method: &str, target: &str) -> Result<Asked, NoMemory>
    ensures { IfOk result (λ asked.
        (asked.info ≡ audit_info method.now target.now) × (asked.refused ≡ true)) }
{
    Ok(Asked {
        info: audit_info(alloc, method, target)?,
        refused: true,
    })
}

// What a request asks for, as it is recorded.
fn ask(alloc: Global, request: &Request) -> Result<Asked, NoMemory>
    ensures { IfOk result (IsAsked request.now) }
{
    let method = request.head.method.as_str();
    let target = request.head.target.as_str();
    match info(alloc, method, target) {
        Ok(info) => {
            match is_unread(alloc, info.path.as_str(), target) {
                Ok(refused) => Ok(Asked { info, refused }),
                Err(_) => {
                    drop(info);
                    Err(NoMemory)
                }
            }
        }
        Err(InfoFault::BadTarget) => refused(alloc, method, target),
        Err(InfoFault::NoKind) => refused(alloc, method, target),
        Err(InfoFault::NoMemory) => Err(NoMemory),
    }
}

// Whether a header asks for another protocol than HTTP/2.
fn is_upgrade(header: &Header) -> bool
    ensures { result ≡ spec.is_upgrade header.now }
{
    header.is_named("upgrade") && !has_only(header.value.as_slice(), "h2c")
}

fn has_upgrade(headers: &[Header]) -> bool
    ensures { result ≡ list_any spec.is_upgrade headers.now }
{
    headers.iter().any(|header| is_upgrade(header))
}

fn act_refusal(act: &Act) -> Option<u16>
    ensures { result ≡ spec.act_refusal act.now }
{
    match act {
        Act::Own | Act::As(_) => None,
        Act::Unserved => Some(501),
        Act::Bad => Some(400),
        Act::Forbidden => Some(403),
    }
}

// The other user that a request acts as, if it does.
fn other_of(act: Act) -> Option<User>
    ensures { result ≡ spec.other_of act }
{
    match act {
        Act::As(user) => Some(user),
        Act::Own | Act::Unserved | Act::Bad | Act::Forbidden => None,
    }
}

// Whether the token is nobody's.
fn is_unknown(who: &Who) -> bool
    ensures { result ≡ spec.is_unknown who.now }
{
    match who {
        Who::Known(_) | Who::Anonymous => false,
        Who::BadToken => true,
    }
}

// Who asks, and as whom.
#[derive(Drop)]
struct Caller {
    unknown: bool,
    user: User,
    act: Act,
}

fn caller_of(alloc: Global, settings: &Settings, request: &Request) -> Result<Caller, NoMemory>
    ensures { IfOk result (λ it. (it.unknown ≡ spec.is_unknown (spec.asker settings.now request.now))
        × (it.user ≡ spec.user_in settings.now request.now) × (it.act ≡ spec.act_in settings.now request.now)) }
{
    let who = who(alloc, &settings.tokens, &request.head)?;
    let Ok(act) = act(alloc, &who, &request.head) else {
        drop(who);
        return Err(NoMemory);
    };
    let unknown = is_unknown(&who);
    match who.into_user(alloc) {
        Ok(user) => Ok(Caller { unknown, user, act }),
        Err(_) => {
            drop(act);
            Err(NoMemory)
        }
    }
}

// What a request wants: the first that stands in its way, and what its path names otherwise.
fn errand_of(
    alloc: Global,
    paths: &LocalPaths,
    request: &Request,
    moment: Moment,
    asked: &Asked,
    caller: &Caller,
) -> Result<Errand, NoMemory>
    ensures { IfOk result (λ errand. errand ≡ spec.first_errand
        asked.now.refused caller.now.unknown (list_any spec.is_upgrade request.now.head.headers)
        (spec.act_refusal caller.now.act)
        (spec.path_errand asked.now.info request.now.head moment request.now.body
        (user_acting caller.now.act caller.now.user) (spec.local_in asked.now.info.path request.now.head.target))) }
{
    if asked.refused {
        return Ok(Errand::Refuse(400));
    }
    if caller.unknown {
        return Ok(Errand::Refuse(401));
    }
    if has_upgrade(request.head.headers.as_slice()) {
        return Ok(Errand::Refuse(501));
    }
    if let Some(code) = act_refusal(&caller.act) {
        return Ok(Errand::Refuse(code));
    }
    let body = request.body.as_slice();
    let user = caller.act.user(&caller.user);
    path_errand(alloc, paths, &asked.info, &request.head, moment, body, user)
}

/// Who asks for what, what the request wants, and how it is recorded.
#[derive(Debug, Drop)]
pub struct Judged {
    pub attributes: Attributes,
    pub errand: Errand,
    pub decision: Decision,
}

/// Judges a request that was read at that moment, before any table is seen. The policy's rules go by the user that authenticated;
/// what the request may do here goes by the user that it acts as.
pub fn judge(
    alloc: Global,
    settings: &Settings,
    paths: &LocalPaths,
    request: &Request,
    moment: Moment,
) -> Result<Judged, NoMemory>
    ensures { IfOk result (IsJudged settings.now request.now moment) }
{
    let asked = ask(alloc, request)?;
    let Ok(caller) = caller_of(alloc, settings, request) else {
        drop(asked);
        return Err(NoMemory);
    };
    let decision = decide(&settings.policy, &caller.user, &asked.info);
    match errand_of(alloc, paths, request, moment, &asked, &caller) {
        Ok(errand) => Ok(Judged {
            attributes: Attributes {
                info: asked.info,
                user: caller.user,
                acting: other_of(caller.act),
            },
            errand,
            decision,
        }),
        Err(_) => {
            drop(asked);
            drop(caller);
            Err(NoMemory)
        }
    }
}

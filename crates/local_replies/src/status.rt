// The Status bodies of replies.
ghost use Rattle.std.specs.Prelude.{◌≡◌, IfOk, decimal, string_bytes};
ghost use Rattle.local_replies.specs.Status as spec;

use crate::reply::{Content, LocalReply};
use front_base::{Bytes, NoMemory};
use json_span::quote;
use std::alloc::{AllocError, Global};

// Why a request is refused: a word for programs and a sentence for people.
#[derive(Clone, Copy, Debug)]
struct Cause {
    reason: &'static str,
    message: &'static str,
}

impl Cause {
    fn new(reason: &'static str, message: &'static str) -> Cause
        ensures { spec.cause_view result ≡ spec.because reason.now message.now }
    {
        Cause { reason, message }
    }

    // The cause that a code tells.
    #[tactic(auto, unfolding(crate::specs::Status::cause_of))]
    fn of(code: u16) -> Cause
        ensures { spec.cause_view result ≡ spec.cause_of code }
    {
        match code {
            400 => Cause::new("BadRequest", "the request could not be read"),
            401 => Cause::new("Unauthorized", "the token is not known"),
            403 => Cause::new("Forbidden", "only system:masters may change APIServices"),
            404 => Cause::new("NotFound", "the requested resource was not found"),
            405 => Cause::new("MethodNotAllowed", "the method is not served here"),
            409 => Cause::new("AlreadyExists", "the APIService exists"),
            413 => Cause::new("RequestEntityTooLarge", "the request body is too large"),
            415 => Cause::new("UnsupportedMediaType", "only merge patches are served"),
            422 => Cause::new("Invalid", "the APIService is not accepted"),
            431 => Cause::new("RequestHeaderTooLarge", "the request head is too large"),
            500 => Cause::new("InternalError", "the audit event was not stored"),
            501 => Cause::new("NotImplemented", "the request is not served"),
            502 => Cause::new("BadGateway", "the backend gave no whole reply"),
            503 => Cause::new("ServiceUnavailable", "the backend is not available"),
            _ => Cause::new("", "the request was refused"),
        }
    }
}

fn digits(alloc: Global, code: u16) -> Result<String, AllocError>
    ensures { IfOk result (λ text. string_bytes text ≡ decimal code) }
{
    format!(in alloc; "{code}")
}

#[tactic(auto, unfolding(crate::specs::Status::status_text))]
fn status_text(alloc: Global, code: u16, reason: &str, message: &str) -> Result<Vec<u8>, AllocError>
    ensures { IfOk result (λ text. text.items ≡ spec.status_text code reason.now message.now) }
{
    let front =
        b"{\"kind\":\"Status\",\"apiVersion\":\"v1\",\"metadata\":{},\"status\":\"Failure\",\"message\":";
    let mut text = Vec::new(alloc);
    text.extend_from_slice(front.as_slice())?;
    text.extend_from_slice(quote(alloc, message)?.as_slice())?;
    text.extend_from_slice(b",\"reason\":".as_slice())?;
    text.extend_from_slice(quote(alloc, reason)?.as_slice())?;
    text.extend_from_slice(b",\"code\":".as_slice())?;
    text.extend_from_slice(digits(alloc, code)?.as_bytes())?;
    text.push(b'}')?;
    Ok(text)
}

pub fn json_reply(status: u16, body: Bytes) -> LocalReply
    ensures { result ≡ spec.json_reply status body }
{
    LocalReply {
        status,
        content: Content::Json,
        body,
    }
}

/// A reply whose body is a Status that tells a failure.
pub fn status_reply(
    alloc: Global,
    code: u16,
    reason: &str,
    message: &str,
) -> Result<LocalReply, NoMemory>
    ensures { IfOk result (λ reply. reply ≡ spec.status_reply code reason.now message.now) }
{
    let body = status_text(alloc, code, reason, message)?;
    Ok(json_reply(code, Bytes::new(body)))
}

/// The refusal with a code. A code that has no cause of its own has no reason and a message that tells nothing.
pub fn refusal(alloc: Global, code: u16) -> Result<LocalReply, NoMemory>
    ensures { IfOk result (λ reply. reply ≡ spec.refusal code) }
{
    let cause = Cause::of(code);
    status_reply(alloc, code, cause.reason, cause.message)
}

/// The refusal of a request before its path is looked at. It is `refusal`, but for 403, which says that the request may not
/// act as another user.
pub fn front_refusal(alloc: Global, code: u16) -> Result<LocalReply, NoMemory>
    ensures { IfOk result (λ reply. reply ≡ spec.front_refusal code) }
{
    if code == 403 {
        return status_reply(
            alloc,
            403,
            "Forbidden",
            "only system:masters may impersonate",
        );
    }
    refusal(alloc, code)
}

fn conflict_message(alloc: Global, name: &str) -> Result<String, AllocError>
    ensures { IfOk result (λ text. string_bytes text ≡ spec.conflict_message name.now) }
{
    format!(in alloc;
        "Operation cannot be fulfilled on apiservices.apiregistration.k8s.io \"{name}\": this server gives APIServices no uid and no resourceVersion, so no precondition on them holds"
    )
}

/// The refusal of a request that depends on the `uid` or the `resourceVersion` of the APIService of a name.
pub fn conflict(alloc: Global, name: &str) -> Result<LocalReply, NoMemory>
    ensures { IfOk result (λ reply. reply ≡ spec.conflict name.now) }
{
    let message = conflict_message(alloc, name)?;
    status_reply(alloc, 409, "Conflict", message.as_str())
}

/// The reply 200 whose body is a Status that tells a success.
#[tactic(auto, unfolding(crate::specs::Status::success_text))]
pub fn success(alloc: Global) -> Result<LocalReply, NoMemory>
    ensures { IfOk result (λ reply. reply ≡ spec.success) }
{
    let text =
        b"{\"kind\":\"Status\",\"apiVersion\":\"v1\",\"metadata\":{},\"status\":\"Success\",\"code\":200}";
    Ok(json_reply(200, Bytes::new(text.to_vec(alloc)?)))
}

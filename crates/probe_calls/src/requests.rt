// The requests of a prober.
ghost use Rattle.std.specs.Prelude.{◌≡◌, ◌++◌, Some, IfOk, OnOk, string_bytes};
ghost use Rattle.avail_probe.specs.Status.{patch_text};
ghost use Rattle.http_head.specs.Written.{header_lines};
ghost use Rattle.probe_calls.specs.Requests as spec;

use apiservice_rows::Row;
use avail_probe::patch_text;
use front_base::{Address, Bytes, Moment, NoMemory, Text, cut_at, moment_text};
use http_head::{push_end, push_header, push_request_line};
use service_calls::{address_text, list_path};
use std::alloc::{AllocError, Global};

fn url_of(alloc: Global, row: &Row) -> Result<String, AllocError>
    ensures { IfOk result (λ url. string_bytes url ≡ spec.url_of row.now) }
{
    let path = list_path(alloc, row.group.as_str(), row.version.as_str())?;
    match &row.service {
        Some(service) => {
            let name = service.name.as_str();
            let namespace = service.namespace.as_str();
            let port = service.port;
            format!(in alloc; "http://{name}.{namespace}.svc:{port}{path}")
        }
        None => Ok(path),
    }
}

fn message_of(alloc: Global, row: &Row, up: bool) -> Result<String, AllocError>
    ensures { IfOk result (λ text. string_bytes text ≡ spec.message_of row.now up) }
{
    if up {
        return String::from_str(alloc, "all checks passed");
    }
    let url = url_of(alloc, row)?;
    format!(in alloc; "failing or missing response from {url}")
}

fn seconds_text(alloc: Global, moment: Moment) -> Result<String, NoMemory>
    ensures { IfOk result (λ text. string_bytes text ≡ spec.seconds_text moment) }
{
    let whole = moment_text(alloc, moment)?;
    match cut_at(whole.as_str(), '.') {
        Some((seconds, _)) => Ok(format!(in alloc; "{seconds}Z")?),
        None => Ok(String::from_str(alloc, whole.as_str())?),
    }
}

// What is told of a row.
fn body_of(alloc: Global, row: &Row, up: bool, moment: Moment) -> Result<Bytes, NoMemory>
    ensures { IfOk result (λ text. text ≡ patch_text row.now (spec.report_of row.now up moment)) }
{
    let message = message_of(alloc, row, up)?;
    let since = seconds_text(alloc, moment)?;
    patch_text(alloc, row, up, message.as_str(), since.as_str())
}

fn push_bearer(alloc: Global, out: &mut Vec<u8>, token: &str) -> Result<(), AllocError>
    ensures { OnOk result (out.new.items ≡ out.old.items ++ header_lines (spec.token_headers (Some token.now))) }
{
    let value = format!(in alloc; "Bearer {token}")?;
    push_header(out, "Authorization", value.as_bytes())
}

// The header of a token.
#[tactic(auto, unfolding(http_head::specs::Written::header_lines))]
pub fn push_token(alloc: Global, out: &mut Vec<u8>, token: &Option<Text>) -> Result<(), AllocError>
    ensures { OnOk result (out.new.items ≡ out.old.items ++ header_lines (spec.token_headers token.now)) }
{
    match token {
        Some(token) => push_bearer(alloc, out, token.as_str()),
        None => Ok(()),
    }
}

fn push_patch_headers(
    alloc: Global,
    out: &mut Vec<u8>,
    front: Address,
    token: &Option<Text>,
    size: usize,
) -> Result<(), AllocError>
    ensures { OnOk result (out.new.items ≡ out.old.items ++ header_lines (spec.patch_headers front token.now size)) }
{
    let host = address_text(alloc, &front)?;
    let digits = format!(in alloc; "{size}")?;
    push_header(out, "Host", host.as_bytes())?;
    push_token(alloc, out, token)?;
    push_header(out, "Content-Type", b"application/merge-patch+json")?;
    push_header(out, "Content-Length", digits.as_bytes())?;
    push_header(out, "Connection", b"close")?;
    Ok(())
}

#[tactic(auto, unfolding(crate::specs::Requests::patch_head))]
fn patch_head(
    alloc: Global,
    front: Address,
    token: &Option<Text>,
    name: &str,
    size: usize,
) -> Result<Vec<u8>, AllocError>
    ensures { IfOk result (λ head. head.items ≡ spec.patch_head front token.now name.now size) }
{
    let path = format!(in alloc; "/apis/apiregistration.k8s.io/v1/apiservices/{name}")?;
    let mut out = Vec::new(alloc);
    push_request_line(&mut out, "PATCH", path.as_str())?;
    push_patch_headers(alloc, &mut out, front, token, size)?;
    push_end(&mut out)?;
    Ok(out)
}

/// The request that tells a front door whether a row's service is available, since that moment: a merge patch of its conditions, and of
/// nothing else. `token` is that of the request's user, in the header `Authorization` (RFC 6750, section 2.1).
#[tactic(auto, unfolding(crate::specs::Requests::patch_request))]
pub fn patch_request(
    alloc: Global,
    front: Address,
    token: &Option<Text>,
    row: &Row,
    up: bool,
    moment: Moment,
) -> Result<Bytes, NoMemory>
    ensures { IfOk result (λ text. text ≡ spec.patch_request front token.now row.now up moment) }
{
    let body = body_of(alloc, row, up, moment)?;
    let size = body.as_slice().len();
    let mut text = patch_head(alloc, front, token, row.name.as_str(), size)?;
    text.extend_from_slice(body.as_slice())?;
    Ok(Bytes::new(text))
}

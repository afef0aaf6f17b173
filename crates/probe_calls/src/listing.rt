// The request of a prober for the APIServices of a front door.
ghost use Rattle.std.specs.Prelude.{◌≡◌, ◌++◌, IfOk, OnOk};
ghost use Rattle.http_head.specs.Written.{header_lines};
ghost use Rattle.probe_calls.specs.Requests as spec;

use crate::requests::push_token;
use front_base::{Address, Bytes, NoMemory, Text};
use http_head::{push_end, push_header, push_request_line};
use service_calls::address_text;
use std::alloc::{AllocError, Global};

fn push_list_headers(
    alloc: Global,
    out: &mut Vec<u8>,
    front: Address,
    token: &Option<Text>,
) -> Result<(), AllocError>
    ensures { OnOk result (out.new.items ≡ out.old.items ++ header_lines (spec.list_headers front token.now)) }
{
    let host = address_text(alloc, &front)?;
    push_header(out, "Host", host.as_bytes())?;
    push_token(alloc, out, token)?;
    push_header(out, "Accept", b"application/json")?;
    push_header(out, "Connection", b"close")?;
    Ok(())
}

/// The request that asks a front door for the list of its APIServices. `token` is that of the request's user, in the header
/// `Authorization` (RFC 6750, section 2.1).
#[tactic(auto, unfolding(crate::specs::Requests::rows_request))]
pub fn rows_request(alloc: Global, front: Address, token: &Option<Text>) -> Result<Bytes, NoMemory>
    ensures { IfOk result (λ text. text ≡ spec.rows_request front token.now) }
{
    let mut out = Vec::new(alloc);
    push_request_line(
        &mut out,
        "GET",
        "/apis/apiregistration.k8s.io/v1/apiservices",
    )?;
    push_list_headers(alloc, &mut out, front, token)?;
    push_end(&mut out)?;
    Ok(Bytes::new(out))
}

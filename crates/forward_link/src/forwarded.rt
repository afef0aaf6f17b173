// The head of a request as a backend gets it.
ghost use Rattle.std.specs.Prelude.{◌≡◌, ◌++◌, [], ◌∷◌, codes, filter, map, take, IfOk, OnOk, string_bytes};
ghost use Rattle.http_head.specs.Name.{name_begins};
ghost use Rattle.http_head.specs.Written.{header_lines, named};
ghost use Rattle.forward_link.specs.Hop.{is_one_of};
ghost use Rattle.forward_link.specs.Forwarded as spec;

use crate::hop::is_hop;
use crate::target::Target;
use front_base::{Address, AuditId, Bytes, NoMemory, Text, User, audit_id_text};
use http_head::{Head, Header, Headers, push_end, push_header, push_request_line};
use std::alloc::{AllocError, Global};

// Whether it is written anew for the backend, or not at all.
fn is_own(header: &Header) -> bool
    ensures { result ≡ is_one_of spec.own_names header.now }
{
    header.is_named("host")
        || header.is_named("content-length")
        || header.is_named("expect")
        || header.is_named("authorization")
        || header.is_named("audit-id")
}

fn dash(byte: u8) -> u8
    ensures { result ≡ spec.dash byte }
{
    if byte == b'_' { b'-' } else { byte }
}

// Whether the name begins so with `-` for each `_`. ASCII case is ignored.
fn begins_dashed(name: &[u8], prefix: &[u8]) -> bool
    ensures { result ≡ name_begins prefix.now (spec.dashed name.now) }
{
    if name.len() < prefix.len() {
        return false;
    }
    for i in 0..prefix.len() {
        if !dash(name[i]).eq_ignore_ascii_case(&prefix[i]) {
            return false;
        }
    }
    true
}

// Whether it says who asks or for whom, which only the server here says (Kubernetes, "Configure the Aggregation Layer", and
// "User impersonation"). To a backend that is a gateway, `X_Remote_User` is the same name (RFC 3875, section 4.1.18).
fn is_identity(header: &Header) -> bool
    ensures { result ≡ spec.is_identity header.now }
{
    let name = header.name.as_str().as_bytes();
    begins_dashed(name, b"x-remote-") || begins_dashed(name, b"impersonate-")
}

fn passes(headers: &Headers, header: &Header) -> bool
    ensures { result ≡ spec.passes headers.now header.now }
{
    !is_hop(headers, header) && !is_own(header) && !is_identity(header)
}

#[tactic(auto, unfolding(http_head::specs::Written::header_lines))]
fn push_passing(out: &mut Vec<u8>, headers: &Headers) -> Result<(), AllocError>
    ensures { OnOk result (out.new.items
        ≡ out.old.items ++ header_lines (filter (spec.passes headers.now) headers.now)) }
{
    for header in headers.as_slice() {
        if passes(headers, header) {
            push_header(out, header.name.as_str(), header.value.as_slice())?;
        }
    }
    Ok(())
}

fn address_text(alloc: Global, address: &Address) -> Result<String, AllocError>
    ensures { IfOk result (λ text. string_bytes text ≡ spec.address_text address.now) }
{
    let ip = &address.ip;
    let (a, b, c, d) = (ip[0], ip[1], ip[2], ip[3]);
    let port = address.port;
    format!(in alloc; "{a}.{b}.{c}.{d}:{port}")
}

fn host_of(alloc: Global, target: &Target) -> Result<String, AllocError>
    ensures { IfOk result (λ text. string_bytes text ≡ spec.host_of target.now) }
{
    match target {
        Target::Service { to, .. } => {
            let name = to.name.as_str();
            let namespace = to.namespace.as_str();
            let port = to.port;
            format!(in alloc; "{name}.{namespace}.svc:{port}")
        }
        Target::Delegate { address } => address_text(alloc, address),
    }
}

#[tactic(auto, unfolding(http_head::specs::Written::header_lines))]
fn push_groups(out: &mut Vec<u8>, groups: &[Text]) -> Result<(), AllocError>
    ensures { OnOk result (out.new.items
        ≡ out.old.items ++ header_lines (map (named (codes "X-Remote-Group")) groups.now)) }
{
    for group in groups {
        push_header(out, "X-Remote-Group", group.as_str().as_bytes())?;
    }
    Ok(())
}

#[tactic(auto, unfolding(http_head::specs::Written::header_lines))]
fn push_length(alloc: Global, out: &mut Vec<u8>, length: Option<u64>) -> Result<(), AllocError>
    ensures { OnOk result (out.new.items ≡ out.old.items ++ header_lines (spec.length_header length)) }
{
    if let Some(length) = length {
        let text = format!(in alloc; "{length}")?;
        push_header(out, "Content-Length", text.as_bytes())?;
    }
    Ok(())
}

fn push_own(
    alloc: Global,
    out: &mut Vec<u8>,
    user: &User,
    id: AuditId,
    length: Option<u64>,
) -> Result<(), NoMemory>
    ensures { OnOk result (out.new.items
        ≡ out.old.items ++ header_lines (spec.own_headers user.now id length)) }
{
    let id = audit_id_text(alloc, id)?;
    push_header(out, "X-Remote-User", user.name.as_str().as_bytes())?;
    push_groups(out, user.groups.as_slice())?;
    push_header(out, "Audit-ID", id.as_str().as_bytes())?;
    push_length(alloc, out, length)?;
    push_header(out, "Connection", b"close")?;
    Ok(())
}

/// The head that is sent on for a request of this user. `length` is how many bytes its body has, or none where the client
/// framed no body. The user and the groups stand in X-Remote-User and X-Remote-Group (Kubernetes, "Configure the Aggregation
/// Layer"); what else the client says of who asks, its hop headers, and its Authorization are left out.
pub fn forward_head(
    alloc: Global,
    head: &Head,
    user: &User,
    target: &Target,
    id: AuditId,
    length: Option<u64>,
) -> Result<Bytes, NoMemory>
    ensures { IfOk result (λ text. text ≡ spec.forwarded_head head.now user.now target.now id length) }
{
    let host = host_of(alloc, target)?;
    let mut out = Vec::new(alloc);
    push_request_line(&mut out, head.method.as_str(), head.target.as_str())?;
    push_header(&mut out, "Host", host.as_bytes())?;
    push_passing(&mut out, &head.headers)?;
    push_own(alloc, &mut out, user, id, length)?;
    push_end(&mut out)?;
    Ok(Bytes::new(out))
}

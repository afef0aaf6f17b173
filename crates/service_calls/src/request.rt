// The request for a list of resources.
ghost use Rattle.std.specs.Prelude.{◌≡◌, ◌++◌, ◌∷◌, IfOk, OnOk, codes, string_bytes};
ghost use Rattle.forward_link.specs.Forwarded as forwarded;
ghost use Rattle.http_head.specs.Written.{header_lines};
ghost use Rattle.service_calls.specs.Request as spec;

use apiservice_rows::{Row, ServiceRef};
use front_base::{Address, Bytes, NoMemory};
use http_head::{push_end, push_header, push_request_line};
use std::alloc::{AllocError, Global};

/// An address as `A.B.C.D:PORT`.
pub fn address_text(alloc: Global, address: &Address) -> Result<String, AllocError>
    ensures { IfOk result (λ text. string_bytes text ≡ forwarded.address_text address.now) }
{
    let ip = &address.ip;
    let (a, b, c, d) = (ip[0], ip[1], ip[2], ip[3]);
    let port = address.port;
    format!(in alloc; "{a}.{b}.{c}.{d}:{port}")
}

/// Whom a `Host` header names: a service as `NAME.NAMESPACE.svc:PORT`, or without one the address of the delegate.
pub fn host_of(
    alloc: Global,
    service: &Option<ServiceRef>,
    to: &Address,
) -> Result<String, AllocError>
    ensures { IfOk result (λ text. string_bytes text ≡ forwarded.host_of (spec.target_of service.now to.now)) }
{
    match service {
        Some(service) => {
            let name = service.name.as_str();
            let namespace = service.namespace.as_str();
            let port = service.port;
            format!(in alloc; "{name}.{namespace}.svc:{port}")
        }
        None => address_text(alloc, to),
    }
}

/// The path at which a server lists the resources of a group version; that of the core group has its own form.
pub fn list_path(alloc: Global, group: &str, version: &str) -> Result<String, AllocError>
    ensures { IfOk result (λ text. string_bytes text ≡ spec.path_of group.now version.now) }
{
    if group.is_empty() {
        return String::from_str(alloc, "/api/v1");
    }
    format!(in alloc; "/apis/{group}/{version}")
}

#[tactic(auto, unfolding(http_head::specs::Written::header_lines))]
fn push_headers(out: &mut Vec<u8>, host: &str) -> Result<(), AllocError>
    ensures { OnOk result (out.new.items ≡ out.old.items ++ header_lines (spec.headers_of host.now)) }
{
    push_header(out, "Host", host.as_bytes())?;
    push_header(out, "Accept", b"application/json")?;
    push_header(out, "X-Remote-User", b"system:aggregator")?;
    push_header(out, "X-Remote-Group", b"system:masters")?;
    push_header(out, "Connection", b"close")?;
    Ok(())
}

/// The whole request for the list of resources of a row, at that address. It asks as the user `system:aggregator` of the group
/// `system:masters`.
pub fn list_request(alloc: Global, row: &Row, to: &Address) -> Result<Bytes, NoMemory>
    ensures { IfOk result (λ text. text ≡ spec.request_bytes row.now to.now) }
{
    let path = list_path(alloc, row.group.as_str(), row.version.as_str())?;
    let host = host_of(alloc, &row.service, to)?;
    let mut out = Vec::new(alloc);
    push_request_line(&mut out, "GET", path.as_str())?;
    push_headers(&mut out, host.as_str())?;
    push_end(&mut out)?;
    Ok(Bytes::new(out))
}

// The line that says where a request goes.
ghost use Rattle.std.specs.Prelude.{◌≡◌, ◌++◌, IfOk, OnErr, OnOk, codes, string_bytes};
ghost use Rattle.forward_link.specs.Forwarded as forwarded;
ghost use Rattle.explain_run.specs.RouteLines as spec;

use audit_core::Handling;
use front_base::{Address, NoMemory};
use std::alloc::{AllocError, Global};

fn address_text(alloc: Global, address: &Address) -> Result<String, AllocError>
    ensures { IfOk result (λ text. string_bytes text ≡ forwarded.address_text address.now) }
{
    let ip = &address.ip;
    let (a, b, c, d) = (ip[0], ip[1], ip[2], ip[3]);
    let port = address.port;
    format!(in alloc; "{a}.{b}.{c}.{d}:{port}")
}

fn backend_text(alloc: Global, address: &Address) -> Result<String, AllocError>
    ensures { IfOk result (λ text. string_bytes text ≡ codes "backend " ++ forwarded.address_text address.now) }
{
    let address = address_text(alloc, address)?;
    format!(in alloc; "backend {address}")
}

fn way_text(alloc: Global, handling: &Handling) -> Result<String, AllocError>
    ensures { IfOk result (λ text. string_bytes text ≡ spec.way_text handling.now) }
{
    match handling {
        Handling::Refused(code) => format!(in alloc; "refused {code}"),
        Handling::Served { reply, .. } => {
            let status = reply.status;
            format!(in alloc; "local {status}")
        }
        Handling::Proxied(target) => backend_text(alloc, &target.address()),
    }
}

/// Adds the line of the request with that number, which is handled so. Where memory runs out, nothing is added.
pub fn push_route(
    alloc: Global,
    number: u64,
    handling: &Handling,
    lines: &mut Vec<u8>,
) -> Result<(), NoMemory>
    ensures ok { OnOk result (lines.new.items ≡ lines.old.items ++ spec.route_line number handling.now) }
    ensures kept { OnErr result (lines.new.items ≡ lines.old.items) }
{
    let way = way_text(alloc, handling)?;
    let line = format!(in alloc; "{number} {way}\n")?;
    lines.extend_from_slice(line.as_bytes())?;
    Ok(())
}

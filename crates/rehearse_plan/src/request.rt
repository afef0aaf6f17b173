// The requests as they are sent, and which bay has which.
ghost use Rattle.std.specs.Prelude.{◌≡◌, ◌<◌, ◌++◌, IfOk, OnOk, string_bytes};
ghost use Rattle.rehearse_plan.specs.Requests as spec;

use crate::kind::Kind;
use crate::plan::Rehearsal;
use front_base::{Bytes, NoMemory};
use http_head::{push_end, push_header, push_request_line};
use itoa::Buffer;
use std::alloc::{AllocError, Global};

/// The target of the request of that kind and number.
pub fn target_of(alloc: Global, kind: Kind, number: u32) -> Result<String, AllocError>
    ensures { IfOk result (λ target. string_bytes target ≡ spec.target_of kind number) }
{
    match kind {
        Kind::Pods => {
            let mut target = String::from_str(alloc, "/api/v1/namespaces/n")?;
            target.push_str(Buffer::new().format(number % 10))?;
            target.push_str("/pods")?;
            Ok(target)
        }
        Kind::Create => String::from_str(alloc, "/apis/metrics.example/v1/namespaces/a/samples"),
        Kind::Health => String::from_str(alloc, "/healthz"),
        Kind::Groups => String::from_str(alloc, "/apis"),
        Kind::Unknown => String::from_str(alloc, "/apis/none.example/v1/things"),
        Kind::Secret => String::from_str(alloc, "/api/v1/namespaces/a/secrets/s"),
        Kind::Watch => String::from_str(alloc, "/apis/down.example/v1/things?watch=true"),
        Kind::Update => String::from_str(alloc, "/apis/metrics.example/v1/namespaces/a/samples/s"),
    }
}

/// The body of the request of that kind and number, empty where it has none.
pub fn body_of(alloc: Global, kind: Kind, number: u32) -> Result<String, AllocError>
    ensures { IfOk result (λ body. string_bytes body ≡ spec.body_of kind number) }
{
    let mut body = String::new(alloc);
    if kind.has_body() {
        body.push_str("{\"i\":")?;
        body.push_str(Buffer::new().format(number))?;
        body.push_str("}")?;
    }
    Ok(body)
}

fn push_length(out: &mut Vec<u8>, kind: Kind, size: usize) -> Result<(), AllocError>
    ensures { OnOk result (out.new.items ≡ out.old.items ++ spec.length_lines kind size) }
{
    if kind.has_body() {
        push_header(out, "Content-Length", Buffer::new().format(size).as_bytes())?;
    }
    Ok(())
}

#[tactic(auto, unfolding(crate::specs::Requests::request_at))]
fn push_request(out: &mut Vec<u8>, alloc: Global, kind: Kind, number: u32) -> Result<(), AllocError>
    ensures { OnOk result (out.new.items ≡ out.old.items ++ spec.request_at kind number) }
{
    let target = target_of(alloc, kind, number)?;
    let body = body_of(alloc, kind, number)?;
    push_request_line(out, kind.method(), target.as_str())?;
    push_header(out, "Host", b"front")?;
    push_length(out, kind, body.len())?;
    push_end(out)?;
    out.extend_from_slice(body.as_bytes())?;
    Ok(())
}

/// How many of the requests a bay has: the requests go round the bays, one after another.
pub fn share(plan: Rehearsal, bay: u16) -> u32
    requires bay { bay < plan.bays }
    ensures { result ≡ spec.share plan.count plan.bays bay }
{
    (plan.count + u32::from(plan.bays) - 1 - u32::from(bay)) / u32::from(plan.bays)
}

/// The number of the request that a bay serves after so many of its own.
pub fn number_of(plan: Rehearsal, bay: u16, turn: u32) -> u32
    requires bay { bay < plan.bays }
    requires turn { turn < spec.share plan.count plan.bays bay }
    ensures number { result ≡ spec.number_of plan.bays bay turn }
    ensures few { result < plan.count }
{
    u32::from(bay) + u32::from(plan.bays) * turn
}

/// All that a bay's one connection is sent.
pub fn bay_input(alloc: Global, plan: Rehearsal, bay: u16) -> Result<Bytes, NoMemory>
    requires bay { bay < plan.bays }
    ensures { IfOk result (λ bytes. bytes ≡ spec.bay_input plan.start plan.count plan.bays bay) }
{
    let mut out = Vec::new(alloc);
    for turn in 0..share(plan, bay) {
        let number = number_of(plan, bay, turn);
        push_request(&mut out, alloc, Kind::at(plan.start, number), number)?;
    }
    Ok(Bytes::new(out))
}

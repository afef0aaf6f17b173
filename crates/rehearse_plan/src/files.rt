// The files of a rehearsal.
ghost use Rattle.std.specs.Prelude.{◌≡◌, ◌++◌, IfOk, OnOk, flat_map};
ghost use Rattle.rehearse_plan.specs.Files as spec;

use front_base::{Bytes, NoMemory, Text};
use front_ports::MemFiles;
use std::alloc::{AllocError, Global};

// How requests are recorded.
const POLICY: [&str; 5] = [
    r#"{"apiVersion":"audit.k8s.io/v1","kind":"Policy","rules":["#,
    r#"{"level":"None","resources":[{"group":"","resources":["secrets"]}]},"#,
    r#"{"level":"RequestResponse","verbs":["update"],"resources":[{"group":"metrics.example"}]},"#,
    r#"{"level":"Request","resources":[{"group":"metrics.example"}]},"#,
    r#"{"level":"Metadata"}]}"#,
];

// Two APIs of the delegate, and one whose service is unavailable.
const SERVICES: [&str; 8] = [
    r#"{"apiVersion":"v1","kind":"List","items":[{"apiVersion":"apiregistration.k8s.io/v1","kind":"APIService","#,
    r#""metadata":{"name":"v1."},"spec":{"version":"v1","groupPriorityMinimum":18000,"versionPriority":1}},"#,
    r#"{"apiVersion":"apiregistration.k8s.io/v1","kind":"APIService","metadata":{"name":"v1.metrics.example"},"#,
    r#""spec":{"group":"metrics.example","version":"v1","groupPriorityMinimum":1000,"versionPriority":15}},"#,
    r#"{"apiVersion":"apiregistration.k8s.io/v1","kind":"APIService","metadata":{"name":"v1.down.example"},"#,
    r#""spec":{"service":{"namespace":"down","name":"down","port":443},"group":"down.example","version":"v1","#,
    r#""groupPriorityMinimum":1000,"versionPriority":15},"#,
    r#""status":{"conditions":[{"type":"Available","status":"False"}]}}]}"#,
];

// Where the delegate is. The service has no endpoint.
const ENDPOINTS: [&str; 1] = ["local,127.0.0.1:9001\n"];

fn push_parts(text: &mut Vec<u8>, parts: &[&str]) -> Result<(), AllocError>
    ensures { OnOk result (text.new.items ≡ text.old.items ++ flat_map (λ part. part.now) parts.now) }
{
    for part in parts {
        text.extend_from_slice(part.as_bytes())?;
    }
    Ok(())
}

fn file(alloc: Global, name: &str, parts: &[&str]) -> Result<(Text, Bytes), NoMemory>
    ensures { IfOk result (λ file. (file.0 ≡ name.now) × (file.1 ≡ flat_map (λ part. part.now) parts.now)) }
{
    let mut text = Vec::new(alloc);
    push_parts(&mut text, parts)?;
    Ok((Text::copy_of(alloc, name)?, Bytes::new(text)))
}

/// The files that a rehearsal reads, by their names: the policy, the APIServices and the endpoints. The policy records nothing of
/// secrets, requests and replies of updates in the group `metrics.example`, requests alone of all else in it, and metadata of the
/// rest. Of the APIServices two are the delegate's, and the service of the third one is unavailable.
pub fn rehearsal_files(alloc: Global) -> Result<MemFiles, NoMemory>
    ensures { IfOk result spec.HoldsFiles }
{
    let policy = file(alloc, "policy", &POLICY)?;
    let services = file(alloc, "apiservices", &SERVICES)?;
    let endpoints = file(alloc, "endpoints", &ENDPOINTS)?;
    Ok(MemFiles::new(
        vec![in alloc; policy, services, endpoints]?,
        Vec::new(alloc),
    ))
}

use crate::sources::{source_of, text_of, word};
use case_rows::fields;
use front_base::{Info, MOST_FILE_BYTES, Texts, User};
use policy_json::{PolicyFault, read_policy};
use policy_rules::{Decision, Policy, decide};
use std::alloc::Global;
use std::io;

fn read(alloc: Global, text: &[u8]) -> Result<Policy, PolicyFault> {
    if text.len() as u64 > MOST_FILE_BYTES {
        return Err(PolicyFault::NoMemory);
    }
    read_policy(alloc, text)
}

// The policy of a field: `metadata` is the one of every request at that level.
fn policy_of(rt: &HostRuntime, field: &str) -> Result<Policy, PolicyFault> {
    let alloc = rt.alloc();
    if field == "metadata" {
        return Ok(Policy::all_metadata(alloc)?);
    }
    read(alloc, source_of(rt, field).as_slice())
}

/// The policy of a text in JSON.
pub fn show_policy(rt: &HostRuntime, row: &str) -> io::Result<()> {
    let policy = policy_of(rt, row);
    let shown = println!(rt; "{row} => {policy:?}");
    drop(policy);
    shown
}

fn user_of(alloc: Global, name: &str, group: &str) -> User {
    let mut groups = Vec::new(alloc);
    let _ = groups.push(text_of(alloc, group));
    User {
        name: text_of(alloc, name),
        uid: text_of(alloc, ""),
        groups: Texts::new(groups),
    }
}

// What is asked: a path, or a resource by its fields: verb, API group, namespace, resource and name. A subresource stands
// after the resource and a slash.
fn info_of(alloc: Global, asked: &str) -> Info {
    let (path, asked) = if asked.starts_with('/') {
        (asked, "get")
    } else {
        ("", asked)
    };
    let (verb, rest) = fields(asked);
    let (group, rest) = fields(rest);
    let (namespace, rest) = fields(rest);
    let (what, name) = fields(rest);
    let (resource, subresource) = match what.split_once('/') {
        Some(halves) => halves,
        None => (what, ""),
    };
    Info {
        resource_request: path.is_empty(),
        path: text_of(alloc, path),
        verb: text_of(alloc, verb),
        group: text_of(alloc, word(group)),
        version: text_of(alloc, ""),
        namespace: text_of(alloc, word(namespace)),
        resource: text_of(alloc, resource),
        subresource: text_of(alloc, subresource),
        name: text_of(alloc, word(name)),
    }
}

fn decision_of(alloc: Global, policy: &Policy, name: &str, group: &str, asked: &str) -> Decision {
    let user = user_of(alloc, word(name), word(group));
    let info = info_of(alloc, asked);
    let decision = decide(policy, &user, &info);
    drop(info);
    drop(user);
    decision
}

/// How a policy records a request, by a row of the policy, a user, a group of theirs and what is asked.
pub fn show_decision(rt: &HostRuntime, row: &str) -> io::Result<()> {
    let (source, rest) = fields(row);
    let (name, rest) = fields(rest);
    let (group, asked) = fields(rest);
    match policy_of(rt, source) {
        Ok(policy) => {
            let decision = decision_of(rt.alloc(), &policy, name, group, asked);
            drop(policy);
            println!(rt; "{row} => {decision:?}")
        }
        Err(fault) => println!(rt; "{row} => {fault:?}"),
    }
}

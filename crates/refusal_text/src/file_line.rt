// The line for a file that wasn't loaded.
ghost use Rattle.std.specs.Prelude.{◌≡◌, ◌++◌, IfOk, codes, option_map, string_bytes};
ghost use Rattle.front_config.specs.Load.{name_for};
ghost use Rattle.refusal_text.specs.Place.{place_of};
ghost use Rattle.refusal_text.specs.Text as spec;

use crate::json_place::file_reason;
use crate::place::place_of;
use crate::reason::{endpoint_reason, policy_reason, record_reason, row_reason};
use command_options::FileNames;
use front_config::{FileFault, LoadFault, Which};
use std::alloc::{AllocError, Global};

fn option_of(which: Which) -> &'static str
    ensures { result.now ≡ spec.option_of which }
{
    match which {
        Which::Tokens => "--token-auth-file",
        Which::Policy => "--audit-policy-file",
        Which::Services => "--apiservices",
        Which::Endpoints => "--endpoints",
    }
}

fn name_of(names: &FileNames, which: Which) -> &str
    ensures { result.now ≡ spec.name_or_none (name_for names.now which) }
{
    let name = match which {
        Which::Tokens => names.tokens.as_ref(),
        Which::Policy => names.policy.as_ref(),
        Which::Services => names.services.as_ref(),
        Which::Endpoints => names.endpoints.as_ref(),
    };
    match name {
        Some(name) => name.as_str(),
        None => "",
    }
}

fn file_head(alloc: Global, names: &FileNames, which: Which) -> Result<String, AllocError>
    ensures { IfOk result (λ head. string_bytes head ≡ spec.file_head names.now which) }
{
    let option = option_of(which);
    let name = name_of(names, which);
    format!(in alloc; "{option}={name}: ")
}

// Why the bytes of the file of that name are refused.
fn reason_of(alloc: Global, name: &str, fault: &FileFault) -> Result<String, AllocError> {
    match fault {
        FileFault::TooLong => String::from_str(alloc, "larger than 16 MiB"),
        FileFault::NotJson(bytes) => file_reason(alloc, name, bytes.as_slice()),
        FileFault::Token { why, .. } => String::from_str(alloc, record_reason(*why)),
        FileFault::PolicyFile(fault) => String::from_str(alloc, policy_reason(fault)),
        FileFault::RowsFile(fault) => String::from_str(alloc, row_reason(fault)),
        FileFault::Endpoint { why, .. } => String::from_str(alloc, endpoint_reason(*why)),
    }
}

// The reason after a colon, where a place stands before it.
fn after_place(alloc: Global, place: &str, reason: &str) -> Result<String, AllocError> {
    if place.is_empty() {
        return String::from_str(alloc, reason);
    }
    format!(in alloc; ": {reason}")
}

fn bad_file(
    alloc: Global,
    names: &FileNames,
    which: Which,
    fault: &FileFault,
) -> Result<String, AllocError>
    ensures { IfOk result (λ line. spec.Begins (string_bytes line) (spec.file_head names.now which ++ place_of fault.now)) }
{
    let mut line = file_head(alloc, names, which)?;
    let place = place_of(alloc, fault)?;
    let reason = reason_of(alloc, name_of(names, which), fault)?;
    let rest = after_place(alloc, place.as_str(), reason.as_str())?;
    line.push_str(place.as_str())?;
    line.push_str(rest.as_str())?;
    Ok(line)
}

/// The system's reason, or else these words.
pub fn reason_or<'r>(words: &'static str, reason: Option<&'r str>) -> &'r str
    ensures { result.now ≡ spec.reason_or words.now (option_map (λ own. own.now) reason.entry) }
{
    match reason {
        Some(reason) => reason,
        None => words,
    }
}

fn unread(
    alloc: Global,
    names: &FileNames,
    which: Which,
    reason: Option<&str>,
) -> Result<String, AllocError>
    ensures { IfOk result (λ line. string_bytes line ≡ spec.file_head names.now which
        ++ spec.reason_or (codes "could not be read") (option_map (λ own. own.now) reason.entry)) }
{
    let mut line = file_head(alloc, names, which)?;
    line.push_str(reason_or("could not be read", reason))?;
    Ok(line)
}

/// The line for files that weren't loaded, the system having given this reason.
pub fn file_line(
    alloc: Global,
    names: &FileNames,
    fault: &LoadFault,
    reason: Option<&str>,
) -> Result<String, AllocError>
    ensures { IfOk result (λ line.
        spec.SaysFile names.now fault.now (option_map (λ own. own.now) reason.entry) (string_bytes line)) }
{
    match fault {
        LoadFault::ReadFault { which } => unread(alloc, names, *which, reason),
        LoadFault::BadFile { which, fault } => bad_file(alloc, names, *which, fault),
        LoadFault::NoMemory => String::from_str(alloc, "out of memory"),
    }
}

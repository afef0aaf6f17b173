// Whether a query asks for less than its path names.
ghost use Rattle.std.specs.Prelude.{◌≡◌, IfOk, bytes_eq, codes};
ghost use Rattle.std.specs.List.{list_any};
ghost use Rattle.form_urlencoded.specs.Form.{raw_pairs};
ghost use Rattle.request_info.specs.Selection as spec;
ghost use Rattle.request_info.specs.Target.{query_of};
ghost use Rattle.request_info.specs.Watch.{text_of};

use crate::target::query_of;
use form_urlencoded::{decode, raw_pairs};
use front_base::{NoMemory, Text};
use std::alloc::{AllocError, Global};

fn is_selector(name: &str) -> bool
    ensures { result ≡ spec.is_selector name.now }
{
    name == "labelSelector" || name == "fieldSelector"
}

fn is_trial(alloc: Global, name: &[u8]) -> Result<bool, AllocError>
    ensures { IfOk result (λ is. is ≡ spec.is_trial (text_of name.now)) }
{
    let name = decode(alloc, name)?;
    Ok(name.as_str() == "dryRun")
}

/// Whether the query of a target has the pair `dryRun`, whatever its value is: what is asked for is tried then, and not done.
pub fn asks_trial(alloc: Global, target: &str) -> Result<bool, NoMemory>
    ensures { IfOk result (λ asks. asks ≡ spec.asks_trial target.now) }
{
    for (name, _) in raw_pairs(query_of(target).as_bytes()) {
        if is_trial(alloc, name)? {
            return Ok(true);
        }
    }
    Ok(false)
}

fn is_less(name: &str, value: &str) -> bool
    ensures { result ≡ spec.is_selecting name.now value.now }
{
    (name == "dryRun" && value != "All") || (is_selector(name) && !value.is_empty())
}

fn is_selecting(alloc: Global, name: &[u8], value: &[u8]) -> Result<bool, AllocError>
    ensures { IfOk result (λ selects. selects ≡ spec.is_selecting (text_of name.now) (text_of value.now)) }
{
    let name = decode(alloc, name)?;
    let value = decode(alloc, value)?;
    Ok(is_less(name.as_str(), value.as_str()))
}

/// Whether the query of a target has a pair that asks for less than the path names: `labelSelector` or `fieldSelector` with a
/// value, or `dryRun` with another one than `All`.
pub fn asks_selection(alloc: Global, target: &str) -> Result<bool, NoMemory>
    ensures { IfOk result (λ asks. asks ≡ spec.asks_selection target.now) }
{
    for (name, value) in raw_pairs(query_of(target).as_bytes()) {
        if is_selecting(alloc, name, value)? {
            return Ok(true);
        }
    }
    Ok(false)
}

fn field_of(selector: &str) -> &str
    ensures { result.now ≡ spec.field_of selector.now }
{
    match selector.split_once('=') {
        Some((field, _)) => field,
        None => selector,
    }
}

fn wanted_of(selector: &str) -> &str
    ensures { result.now ≡ spec.wanted_of selector.now }
{
    match selector.split_once('=') {
        Some((_, wanted)) => wanted,
        None => "",
    }
}

fn is_escaped(byte: u8) -> bool
    ensures { result ≡ spec.is_escaped byte }
{
    byte == b',' || byte == b'=' || byte == b'\\'
}

fn has_escaped(name: &[u8]) -> bool
    ensures { result ≡ list_any (λ b. spec.is_escaped b) name.now }
{
    name.iter().any(|byte| is_escaped(*byte))
}

fn is_plain(name: &str) -> bool
    ensures { result ≡ spec.is_plain name.now }
{
    !name.is_empty() && !has_escaped(name.as_bytes())
}

fn name_in(alloc: Global, selector: &[u8]) -> Result<Option<Text>, NoMemory>
    ensures { IfOk result (λ name. name ≡ spec.name_in (text_of selector.now)) }
{
    let selector = decode(alloc, selector)?;
    let wanted = wanted_of(selector.as_str());
    if field_of(selector.as_str()) == "metadata.name" && is_plain(wanted) {
        Ok(Some(Text::copy_of(alloc, wanted)?))
    } else {
        Ok(None)
    }
}

fn is_of_fields(name: &str) -> bool
    ensures { result ≡ bytes_eq name.now (codes "fieldSelector") }
{
    name == "fieldSelector"
}

fn selects_fields(name: &str, value: &str) -> bool
    ensures { result ≡ spec.is_field_selector name.now value.now }
{
    is_of_fields(name) && !value.is_empty()
}

fn is_field_selector(alloc: Global, name: &[u8], value: &[u8]) -> Result<bool, AllocError>
    ensures { IfOk result (λ is. is ≡ spec.is_field_selector (text_of name.now) (text_of value.now)) }
{
    let name = decode(alloc, name)?;
    let value = decode(alloc, value)?;
    Ok(selects_fields(name.as_str(), value.as_str()))
}

/// The name of the one object that the query of a target asks for: where its first `fieldSelector` that isn't empty is
/// `metadata.name=NAME`, and the name needs no escape. No other pair counts here: `asks_else` says whether one asks for more.
pub fn selected_name(alloc: Global, target: &str) -> Result<Option<Text>, NoMemory>
    ensures { IfOk result (λ name. name ≡ spec.selected_name target.now) }
{
    for (name, value) in raw_pairs(query_of(target).as_bytes()) {
        if is_field_selector(alloc, name, value)? {
            return name_in(alloc, value);
        }
    }
    Ok(None)
}

fn asks_name(chosen: &Option<Text>, name: &str, value: &str) -> bool
    ensures { result ≡ spec.asks_name chosen.now name.now value.now }
{
    match chosen {
        None => false,
        Some(wanted) => {
            name == "fieldSelector"
                && field_of(value) == "metadata.name"
                && wanted_of(value) == wanted.as_str()
        }
    }
}

fn is_else(
    alloc: Global,
    chosen: &Option<Text>,
    name: &[u8],
    value: &[u8],
) -> Result<bool, AllocError>
    ensures { IfOk result (λ other. other ≡ spec.is_else chosen.now (text_of name.now) (text_of value.now)) }
{
    if !is_selecting(alloc, name, value)? {
        return Ok(false);
    }
    let name = decode(alloc, name)?;
    let value = decode(alloc, value)?;
    Ok(!asks_name(chosen, name.as_str(), value.as_str()))
}

fn has_else(alloc: Global, chosen: &Option<Text>, target: &str) -> Result<bool, NoMemory>
    ensures { IfOk result (λ has. has
        ≡ list_any (λ pair. spec.is_else chosen.now (text_of pair.0) (text_of pair.1)) (raw_pairs (query_of target.now))) }
{
    for (name, value) in raw_pairs(query_of(target).as_bytes()) {
        if is_else(alloc, chosen, name, value)? {
            return Ok(true);
        }
    }
    Ok(false)
}

/// Whether the query of a target asks for less than the path names in another way than for the object of the name that
/// `selected_name` gives.
pub fn asks_else(alloc: Global, target: &str) -> Result<bool, NoMemory>
    ensures { IfOk result (λ asks. asks ≡ spec.asks_else target.now) }
{
    let chosen = selected_name(alloc, target)?;
    has_else(alloc, &chosen, target)
}

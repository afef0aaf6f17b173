// The members of a policy and of a rule, one check each.
ghost use Rattle.std.specs.Prelude.{◌≡◌, Some, codes, option_map};
ghost use Rattle.json_value.specs.Members.{present};
ghost use Rattle.serde_json.specs.View.{view, items_view};
ghost use Rattle.front_base.specs.Stage.{stage_name};
ghost use Rattle.policy_json.specs.Fault.{Gives};
ghost use Rattle.policy_json.specs.Reading as spec;

use crate::fault::{PolicyFault, bad_field};
use front_base::{Level, Stage, Text, Texts};
use json_value::{is_text, present, text_in};
use policy_rules::Omit;
use serde_json::Value;
use std::alloc::Global;

// What a policy, or one of its rules, says of omissions.
#[derive(Clone, Copy)]
pub struct Omissions {
    pub stages: Omit,
    // None where it isn't given.
    pub managed: Option<bool>,
}

pub fn text_of(
    alloc: Global,
    rule: Option<u32>,
    name: &str,
    value: &Value,
) -> Result<Text, PolicyFault>
    ensures { Gives (λ t. t) result (spec.text_of rule name.now (view value.now)) }
{
    match value.as_str() {
        Some(text) => Ok(Text::copy_of(alloc, text)?),
        None => Err(bad_field(alloc, rule, name)),
    }
}

#[tactic(auto, unfolding(crate::specs::Reading::texts_of))]
fn texts_of(
    alloc: Global,
    rule: Option<u32>,
    name: &str,
    items: &Vec<Value>,
) -> Result<Texts, PolicyFault>
    ensures { Gives (λ t. t) result (spec.texts_of rule name.now (items_view items.now.items)) }
{
    let mut texts = Vec::new(alloc);
    for item in items {
        texts.push(text_of(alloc, rule, name, item)?)?;
    }
    Ok(Texts::new(texts))
}

// A list of texts, of which an absent one has none.
pub fn texts_in(
    alloc: Global,
    rule: Option<u32>,
    name: &str,
    found: Option<&Value>,
) -> Result<Texts, PolicyFault>
    ensures { Gives (λ t. t) result (spec.texts_in rule name.now (option_map (λ v. view v.now) found.entry)) }
{
    match found {
        None => Ok(Texts::new(Vec::new(alloc))),
        Some(Value::Array(items)) => texts_of(alloc, rule, name, items),
        Some(_) => Err(bad_field(alloc, rule, name)),
    }
}

fn is_stage(value: &Value) -> bool
    ensures { result ≡ spec.is_stage (view value.now) }
{
    match value.as_str() {
        Some(name) => Stage::of_name(name).is_some(),
        None => false,
    }
}

fn are_stages(items: &Vec<Value>) -> bool
    ensures { result ≡ spec.are_stages (items_view items.now.items) }
{
    for item in items {
        if !is_stage(item) {
            return false;
        }
    }
    true
}

fn names_stage(stage: Stage, items: &Vec<Value>) -> bool
    ensures { result ≡ spec.names_stage (stage_name stage) (items_view items.now.items) }
{
    for item in items {
        if is_text(stage.name(), Some(item)) {
            return true;
        }
    }
    false
}

#[tactic(auto, unfolding(crate::specs::Reading::omit_of))]
fn omit_of(alloc: Global, rule: Option<u32>, items: &Vec<Value>) -> Result<Omit, PolicyFault>
    ensures { Gives (λ o. o) result (spec.omit_of rule (items_view items.now.items)) }
{
    if !are_stages(items) {
        return Err(bad_field(alloc, rule, "omitStages"));
    }
    Ok(Omit {
        received: names_stage(Stage::RequestReceived, items),
        started: names_stage(Stage::ResponseStarted, items),
        complete: names_stage(Stage::ResponseComplete, items),
    })
}

fn omit_in(alloc: Global, rule: Option<u32>, value: &Value) -> Result<Omit, PolicyFault>
    ensures { Gives (λ o. o) result
        (spec.omit_in rule (present (codes "omitStages") (view value.now))) }
{
    match present(value, "omitStages") {
        None => Ok(Omit::NOTHING),
        Some(Value::Array(items)) => omit_of(alloc, rule, items),
        Some(_) => Err(bad_field(alloc, rule, "omitStages")),
    }
}

// Whether managed fields are left out, where that is given.
fn managed_in(alloc: Global, rule: Option<u32>, value: &Value) -> Result<Option<bool>, PolicyFault>
    ensures { Gives (λ b. b) result
        (spec.managed_in rule (present (codes "omitManagedFields") (view value.now))) }
{
    match present(value, "omitManagedFields") {
        None => Ok(None),
        Some(Value::Bool(truth)) => Ok(Some(*truth)),
        Some(_) => Err(bad_field(alloc, rule, "omitManagedFields")),
    }
}

// What both a policy and a rule may leave out.
#[tactic(auto, unfolding(crate::specs::Reading::omissions_of))]
pub fn omissions_of(
    alloc: Global,
    rule: Option<u32>,
    value: &Value,
) -> Result<Omissions, PolicyFault>
    ensures { Gives (λ o. o) result (spec.omissions_of rule (view value.now)) }
{
    let stages = omit_in(alloc, rule, value)?;
    let managed = managed_in(alloc, rule, value)?;
    Ok(Omissions { stages, managed })
}

fn level_in(value: &Value) -> Option<Level>
    ensures { result ≡ spec.level_in (present (codes "level") (view value.now)) }
{
    Level::of_name(text_in(present(value, "level"))?)
}

#[tactic(auto, unfolding(crate::specs::Reading::level_of))]
pub fn level_of(alloc: Global, rule: u32, value: &Value) -> Result<Level, PolicyFault>
    ensures { Gives (λ l. l) result (spec.level_of rule (view value.now)) }
{
    match level_in(value) {
        Some(level) => Ok(level),
        None => Err(bad_field(alloc, Some(rule), "level")),
    }
}

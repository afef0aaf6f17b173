// A rule of a policy.
ghost use Rattle.std.specs.Prelude.{◌≡◌, Some, codes, not};
ghost use Rattle.json_value.specs.Members.{present};
ghost use Rattle.serde_json.specs.View.{view, items_view};
ghost use Rattle.policy_json.specs.Fault.{Gives};
ghost use Rattle.policy_json.specs.Reading as spec;

use crate::fault::{PolicyFault, bad_field};
use crate::members::{Omissions, level_of, omissions_of, text_of, texts_in};
use front_base::{Level, Text, Texts};
use json_value::present;
use policy_rules::{GroupResources, Resources, Rule};
use serde_json::Value;
use std::alloc::Global;

// Absent is the core group, whose name is empty.
fn group_in(alloc: Global, rule: u32, element: &Value) -> Result<Text, PolicyFault>
    ensures { Gives (λ t. t) result (spec.group_in rule (present (codes "group") (view element.now))) }
{
    match present(element, "group") {
        None => Ok(Text::new(String::new(alloc))),
        Some(value) => text_of(alloc, Some(rule), "resources", value),
    }
}

// The list of texts that is the rule's, or the element's, member of that name.
fn texts_at(alloc: Global, rule: u32, name: &str, value: &Value) -> Result<Texts, PolicyFault>
    ensures { Gives (λ t. t) result
        (spec.texts_in (Some rule) name.now (present name.now (view value.now))) }
{
    texts_in(alloc, Some(rule), name, present(value, name))
}

// Its faults are those of `resources`.
fn names_in(alloc: Global, rule: u32, element: &Value) -> Result<Texts, PolicyFault>
    ensures { Gives (λ t. t) result
        (spec.texts_in (Some rule) (codes "resources") (present (codes "resourceNames") (view element.now))) }
{
    texts_in(
        alloc,
        Some(rule),
        "resources",
        present(element, "resourceNames"),
    )
}

#[tactic(auto, unfolding(crate::specs::Reading::element_members))]
fn element_members(alloc: Global, rule: u32, value: &Value) -> Result<GroupResources, PolicyFault>
    ensures { Gives (λ e. e) result (spec.element_members rule (view value.now)) }
{
    let group = group_in(alloc, rule, value)?;
    let resources = texts_at(alloc, rule, "resources", value)?;
    let resource_names = names_in(alloc, rule, value)?;
    Ok(GroupResources {
        group,
        resources,
        resource_names,
    })
}

#[tactic(auto, unfolding(crate::specs::Reading::element_of))]
fn element_of(alloc: Global, rule: u32, value: &Value) -> Result<GroupResources, PolicyFault>
    ensures { Gives (λ e. e) result (spec.element_of rule (view value.now)) }
{
    if !value.is_object() {
        return Err(bad_field(alloc, Some(rule), "resources"));
    }
    element_members(alloc, rule, value)
}

#[tactic(auto, unfolding(crate::specs::Reading::elements_of))]
fn elements_of(alloc: Global, rule: u32, items: &Vec<Value>) -> Result<Resources, PolicyFault>
    ensures { Gives (λ r. r) result (spec.elements_of rule (items_view items.now.items)) }
{
    let mut elements = Vec::new(alloc);
    for item in items {
        elements.push(element_of(alloc, rule, item)?)?;
    }
    Ok(Resources::new(elements))
}

fn elements_in(alloc: Global, rule: u32, value: &Value) -> Result<Resources, PolicyFault>
    ensures { Gives (λ r. r) result
        (spec.elements_in rule (present (codes "resources") (view value.now))) }
{
    match present(value, "resources") {
        None => Ok(Resources::new(Vec::new(alloc))),
        Some(Value::Array(items)) => elements_of(alloc, rule, items),
        Some(_) => Err(bad_field(alloc, Some(rule), "resources")),
    }
}

fn has_asterisk(text: &[u8]) -> bool
    ensures { result ≡ spec.has_asterisk text.now }
{
    text.iter().any(|byte| *byte == b'*')
}

// `*`, or a path that has `*` at most at its end.
#[tactic(auto, unfolding(crate::specs::Reading::is_good_url))]
fn is_good_url(url: &[u8]) -> bool
    ensures { result ≡ spec.is_good_url url.now }
{
    url == b"*".as_slice()
        || url.starts_with(b"/".as_slice()) && !has_asterisk(&url[..url.len() - 1])
}

fn has_bad_url(urls: &[Text]) -> bool
    ensures { result ≡ spec.has_bad_url urls.now }
{
    urls.iter().any(|url| !is_good_url(url.as_str().as_bytes()))
}

fn has_lone_names(elements: &[GroupResources]) -> bool
    ensures { result ≡ spec.has_lone_names elements.now }
{
    elements.iter().any(|element| !element.resource_names.as_slice().is_empty()
        && element.resources.as_slice().is_empty())
}

// What the members say together.
#[tactic(auto, unfolding(crate::specs::Reading::fit_together))]
fn fit_together(place: u32, rule: &Rule) -> Result<(), PolicyFault>
    ensures { Gives (λ u. u) result (spec.fit_together place rule.now) }
{
    let has_urls = !rule.non_resource_urls.as_slice().is_empty();
    if has_urls && rule.is_about_resources() {
        return Err(PolicyFault::BothKinds { rule: place });
    }
    if has_bad_url(rule.non_resource_urls.as_slice()) {
        return Err(PolicyFault::BadUrl { rule: place });
    }
    if has_lone_names(rule.resources.as_slice()) {
        return Err(PolicyFault::NamesWithoutResources { rule: place });
    }
    Ok(())
}

// Who asks, and how.
#[derive(Drop)]
struct Subjects {
    users: Texts,
    user_groups: Texts,
    verbs: Texts,
}

// What is asked for.
#[derive(Drop)]
struct Targets {
    resources: Resources,
    namespaces: Texts,
    non_resource_urls: Texts,
}

#[tactic(auto, unfolding(crate::specs::Reading::subjects_of))]
fn subjects_of(alloc: Global, place: u32, value: &Value) -> Result<Subjects, PolicyFault>
    ensures { Gives (λ s. s) result (spec.subjects_of place (view value.now)) }
{
    let users = texts_at(alloc, place, "users", value)?;
    let user_groups = texts_at(alloc, place, "userGroups", value)?;
    let verbs = texts_at(alloc, place, "verbs", value)?;
    Ok(Subjects {
        users,
        user_groups,
        verbs,
    })
}

#[tactic(auto, unfolding(crate::specs::Reading::targets_of))]
fn targets_of(alloc: Global, place: u32, value: &Value) -> Result<Targets, PolicyFault>
    ensures { Gives (λ t. t) result (spec.targets_of place (view value.now)) }
{
    let resources = elements_in(alloc, place, value)?;
    let namespaces = texts_at(alloc, place, "namespaces", value)?;
    let non_resource_urls = texts_at(alloc, place, "nonResourceURLs", value)?;
    Ok(Targets {
        resources,
        namespaces,
        non_resource_urls,
    })
}

fn rule_with(level: Level, subjects: Subjects, targets: Targets, omissions: Omissions) -> Rule
    ensures { result ≡ spec.rule_with level subjects targets omissions }
{
    Rule {
        level,
        users: subjects.users,
        user_groups: subjects.user_groups,
        verbs: subjects.verbs,
        resources: targets.resources,
        namespaces: targets.namespaces,
        non_resource_urls: targets.non_resource_urls,
        omit: omissions.stages,
        omit_managed: omissions.managed,
    }
}

#[tactic(auto, unfolding(crate::specs::Reading::rule_members))]
fn rule_members(alloc: Global, place: u32, value: &Value) -> Result<Rule, PolicyFault>
    ensures { Gives (λ r. r) result (spec.rule_members place (view value.now)) }
{
    let level = level_of(alloc, place, value)?;
    let subjects = subjects_of(alloc, place, value)?;
    let targets = targets_of(alloc, place, value)?;
    let omissions = omissions_of(alloc, Some(place), value)?;
    Ok(rule_with(level, subjects, targets, omissions))
}

#[tactic(auto, unfolding(crate::specs::Reading::rule_of, crate::specs::Reading::checked_rule))]
pub fn rule_of(alloc: Global, place: u32, value: &Value) -> Result<Rule, PolicyFault>
    ensures { Gives (λ r. r) result (spec.rule_of place (view value.now)) }
{
    if !value.is_object() {
        return Err(bad_field(alloc, Some(place), "rules"));
    }
    let rule = rule_members(alloc, place, value)?;
    fit_together(place, &rule)?;
    Ok(rule)
}

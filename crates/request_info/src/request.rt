ghost use Rattle.std.specs.Prelude.{◌≡◌, ◌<◌, [], IfOk, length};
ghost use Rattle.request_info.specs.Parts.{texts_of, parts_of};
ghost use Rattle.request_info.specs.Resource.{api_view, named_view, api_of};
ghost use Rattle.request_info.specs.Request as spec;

use crate::fault::InfoFault;
use crate::parts::{parts_of, split};
use crate::resource::{Api, Named, api_of, behind_verb, named_by};
use crate::target::{path_of, query_of};
use crate::verb::{collection_verb, verb_of};
use front_base::{Info, NoMemory, Text};
use std::alloc::Global;

fn text(alloc: Global, text: &str) -> Result<Text, NoMemory>
    ensures { IfOk result (λ copy. copy ≡ text.now) }
{
    Ok(Text::new(String::from_str(alloc, text)?))
}

// It takes no memory.
fn empty(alloc: Global) -> Text
    ensures { result ≡ [] }
{
    Text::new(String::new(alloc))
}

// A request that is for no resource.
fn other_info(alloc: Global, method: &str, path: &str) -> Result<Info, NoMemory>
    ensures { IfOk result (λ info. info ≡ spec.other_info method.now path.now) }
{
    Ok(Info {
        resource_request: false,
        path: text(alloc, path)?,
        verb: Text::new(method.to_ascii_lowercase(alloc)?),
        group: empty(alloc),
        version: empty(alloc),
        namespace: empty(alloc),
        resource: empty(alloc),
        subresource: empty(alloc),
        name: empty(alloc),
    })
}

fn two(alloc: Global, first: &str, second: &str) -> Result<(Text, Text), NoMemory>
    ensures { IfOk result (λ texts. (texts.0 ≡ first.now) × (texts.1 ≡ second.now)) }
{
    let first = text(alloc, first)?;
    let Ok(second) = text(alloc, second) else {
        drop(first);
        return Err(NoMemory);
    };
    Ok((first, second))
}

fn three(
    alloc: Global,
    first: &str,
    second: &str,
    third: &str,
) -> Result<(Text, Text, Text), NoMemory>
    ensures { IfOk result (λ texts. (texts.0 ≡ first.now) × (texts.1 ≡ second.now) × (texts.2 ≡ third.now)) }
{
    let (first, second) = two(alloc, first, second)?;
    let Ok(third) = text(alloc, third) else {
        drop(first);
        drop(second);
        return Err(NoMemory);
    };
    Ok((first, second, third))
}

// A request for a resource.
fn resource_info(
    alloc: Global,
    query: &str,
    path: &str,
    api: Api<'_>,
    verb: &str,
    named: Named<'_>,
) -> Result<Info, NoMemory>
    ensures { IfOk result (λ info.
        info ≡ spec.resource_info
        query.now path.now (api_view api.entry) verb.now (named_view named.entry)) }
{
    let told = if named.name.is_empty() {
        collection_verb(alloc, verb, query)?
    } else {
        verb
    };
    let subresource = if verb == "proxy" {
        ""
    } else {
        named.subresource
    };
    let (path, verb, name) = three(alloc, path, told, named.name)?;
    let Ok((group, version, namespace)) = three(alloc, api.group, api.version, named.namespace)
    else {
        drop(path);
        drop(verb);
        drop(name);
        return Err(NoMemory);
    };
    let Ok((resource, subresource)) = two(alloc, named.resource, subresource) else {
        drop(path);
        drop(verb);
        drop(name);
        drop(group);
        drop(version);
        drop(namespace);
        return Err(NoMemory);
    };
    Ok(Info {
        resource_request: true,
        path,
        verb,
        group,
        version,
        namespace,
        resource,
        subresource,
        name,
    })
}

// What a request for a path of these parts asks for.
fn parts_info(
    alloc: Global,
    method: &str,
    query: &str,
    path: &str,
    parts: &[&str],
) -> Result<Info, InfoFault>
    ensures { spec.Answers result
        (spec.path_info method.now query.now path.now (api_of (texts_of parts.now))) }
{
    let Some(api) = api_of(parts) else {
        return Ok(other_info(alloc, method, path)?);
    };
    let behind = behind_verb(api.parts);
    if behind.is_empty() {
        return Err(InfoFault::NoKind);
    }
    let verb = verb_of(method, api.parts);
    Ok(resource_info(alloc, query, path, api, verb, named_by(behind))?)
}

#[tactic(auto, unfolding(crate::specs::Parts::parts_of))]
fn path_info(alloc: Global, method: &str, query: &str, path: &str) -> Result<Info, InfoFault>
    ensures { spec.Answers result
        (spec.path_info method.now query.now path.now (api_of (parts_of path.now))) }
{
    let cut = split(alloc, path)?;
    parts_info(alloc, method, query, path, parts_of(cut.as_slice()))
}

/// What a request asks for. `target` is as it came, not decoded.
pub fn info(alloc: Global, method: &str, target: &str) -> Result<Info, InfoFault>
    ensures { spec.Answers result (spec.info_of method.now target.now) }
{
    match path_of(alloc, target)? {
        Some(path) => path_info(alloc, method, query_of(target), path.as_str()),
        None => Err(InfoFault::BadTarget),
    }
}

/// What is recorded of a request, also of one that `info` refuses.
pub fn audit_info(alloc: Global, method: &str, target: &str) -> Result<Info, NoMemory>
    ensures { IfOk result (λ recorded. recorded ≡ spec.audit_info method.now target.now) }
{
    match info(alloc, method, target) {
        Ok(info) => Ok(info),
        Err(InfoFault::NoMemory) => Err(NoMemory),
        Err(_) => match path_of(alloc, target)? {
            Some(path) => other_info(alloc, method, path.as_str()),
            None => other_info(alloc, method, ""),
        },
    }
}

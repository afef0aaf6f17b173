// What the path of a resource names.
ghost use Rattle.std.specs.Prelude.{◌≡◌, option_map};
ghost use Rattle.request_info.specs.Parts.{texts_of};
ghost use Rattle.request_info.specs.Resource as spec;

/// A group and a version of the API, and the parts of a path after them.
#[derive(Clone, Copy, Debug)]
pub struct Api<'p> {
    pub group: &'p str,
    pub version: &'p str,
    pub parts: &'p [&'p str],
}

/// What a path names.
#[derive(Clone, Copy, Debug)]
pub struct Named<'p> {
    pub namespace: &'p str,
    pub resource: &'p str,
    pub name: &'p str,
    pub subresource: &'p str,
}

/// The text at a place, or none.
pub fn part<'p>(i: usize, parts: &[&'p str]) -> &'p str
    ensures { result.now ≡ spec.part i (texts_of parts.now) }
{
    if i < parts.len() { parts[i] } else { "" }
}

fn core_api<'p>(parts: &'p [&'p str]) -> Option<Api<'p>>
    ensures { option_map spec.api_view result ≡ spec.core_api (texts_of parts.now) }
{
    match parts {
        [version, _, ..] => Some(Api {
            group: "",
            version,
            parts: &parts[1..],
        }),
        _ => None,
    }
}

fn group_api<'p>(parts: &'p [&'p str]) -> Option<Api<'p>>
    ensures { option_map spec.api_view result ≡ spec.group_api (texts_of parts.now) }
{
    match parts {
        [group, version, _, ..] => Some(Api {
            group,
            version,
            parts: &parts[2..],
        }),
        _ => None,
    }
}

/// The API that a path is in, and what it has after it.
pub fn api_of<'p>(parts: &'p [&'p str]) -> Option<Api<'p>>
    ensures { option_map spec.api_view result ≡ spec.api_of (texts_of parts.now) }
{
    let [root, rest @ ..] = parts else {
        return None;
    };
    if *root == "api" {
        return core_api(rest);
    }
    if *root == "apis" {
        return group_api(rest);
    }
    None
}

/// Whether a part before a resource is a verb.
pub fn is_special_verb(text: &str) -> bool
    ensures { result ≡ spec.is_special_verb text.now }
{
    text == "watch" || text == "proxy"
}

/// The parts without such a verb before them.
pub fn behind_verb<'a, 'p>(parts: &'a [&'p str]) -> &'a [&'p str]
    ensures { texts_of result.now ≡ spec.behind_verb (texts_of parts.now) }
{
    let [first, rest @ ..] = parts else {
        return parts;
    };
    if is_special_verb(first) { rest } else { parts }
}

fn object_in<'p>(namespace: &'p str, parts: &[&'p str]) -> Named<'p>
    ensures { spec.named_view result ≡ spec.object_in namespace.now (texts_of parts.now) }
{
    Named {
        namespace,
        resource: part(0, parts),
        name: part(1, parts),
        subresource: part(2, parts),
    }
}

fn is_of_namespaces(text: &str) -> bool
    ensures { result ≡ spec.is_of_namespaces text.now }
{
    text == "status" || text == "finalize"
}

/// What the parts name.
pub fn named_by<'p>(parts: &[&'p str]) -> Named<'p>
    ensures { spec.named_view result ≡ spec.named_by (texts_of parts.now) }
{
    let [first, namespace, rest @ ..] = parts else {
        return object_in("", parts);
    };
    if *first != "namespaces" {
        return object_in("", parts);
    }
    let [third, ..] = rest else {
        return object_in(namespace, parts);
    };
    if is_of_namespaces(third) {
        return object_in(namespace, parts);
    }
    object_in(namespace, rest)
}

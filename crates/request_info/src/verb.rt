// The verb of a request.
ghost use Rattle.std.specs.Prelude.{◌≡◌, IfOk};
ghost use Rattle.request_info.specs.Parts.{texts_of};
ghost use Rattle.request_info.specs.Request as spec;

use crate::resource::{is_special_verb, part};
use crate::watch::asks_watch;
use std::alloc::{AllocError, Global};

fn method_verb(method: &str) -> &'static str
    ensures { result.now ≡ spec.method_verb method.now }
{
    if method == "POST" {
        "create"
    } else if method == "PUT" {
        "update"
    } else if method == "PATCH" {
        "patch"
    } else if method == "DELETE" {
        "delete"
    } else if method == "GET" || method == "HEAD" {
        "get"
    } else {
        ""
    }
}

/// The verb of a path: a special one before the resource, or else the method's.
pub fn verb_of<'p>(method: &str, parts: &[&'p str]) -> &'p str
    ensures { result.now ≡ spec.verb_of method.now (texts_of parts.now) }
{
    let first = part(0, parts);
    if is_special_verb(first) {
        first
    } else {
        method_verb(method)
    }
}

/// The same verb on all objects of a resource.
pub fn collection_verb<'p>(alloc: Global, verb: &'p str, query: &str) -> Result<&'p str, AllocError>
    ensures { IfOk result (λ all. all.now ≡ spec.collection_verb verb.now query.now) }
{
    if verb == "get" {
        return if asks_watch(alloc, query)? {
            Ok("watch")
        } else {
            Ok("list")
        };
    }
    if verb == "delete" {
        Ok("deletecollection")
    } else {
        Ok(verb)
    }
}

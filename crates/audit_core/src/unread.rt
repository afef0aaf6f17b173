// Which requests ask for less than is read of them.
ghost use Rattle.std.specs.Prelude.{◌≡◌, IfOk};
ghost use Rattle.audit_core.specs.Unread as spec;

use front_base::{NoMemory, trim_slashes};
use request_info::{asks_else, asks_selection};
use std::alloc::Global;

// Whether a path without slashes at its ends stands below that of the list of APIServices.
fn is_below(text: &str) -> bool
    ensures { result ≡ spec.is_below text.now }
{
    text.starts_with("apis/apiregistration.k8s.io/v1/apiservices/")
}

// Whether it is that path.
fn is_list(text: &str) -> bool
    ensures { result ≡ spec.is_list text.now }
{
    text == "apis/apiregistration.k8s.io/v1/apiservices"
}

/// Whether a request on APIServices has a selector that isn't read here, or a `dryRun` other than `All`: of their list a selector of
/// one name is read.
#[tactic(auto, unfolding(crate::specs::Unread::is_unread))]
pub fn is_unread(alloc: Global, path: &str, target: &str) -> Result<bool, NoMemory>
    ensures { IfOk result (λ unread. unread ≡ spec.is_unread path.now target.now) }
{
    let text = trim_slashes(path);
    if is_list(text) {
        return asks_else(alloc, target);
    }
    if !is_below(text) {
        return Ok(false);
    }
    asks_selection(alloc, target)
}

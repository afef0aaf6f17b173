// The name of a group version.
ghost use Rattle.std.specs.Prelude.{◌≡◌, IfOk, string_bytes};
ghost use Rattle.resource_fetch.specs.Version as spec;

use std::alloc::{AllocError, Global};

/// The group and the version as documents name them, as `apps/v1`. That of the core group, which has the empty name, is `v1` whatever the
/// version.
pub fn group_version(alloc: Global, group: &str, version: &str) -> Result<String, AllocError>
    ensures { IfOk result (λ text. string_bytes text ≡ spec.group_version group.now version.now) }
{
    if group.is_empty() {
        return String::from_str(alloc, "v1");
    }
    format!(in alloc; "{group}/{version}")
}

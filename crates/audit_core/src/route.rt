// By which API a path is served.
ghost use Rattle.std.specs.Prelude.{◌≡◌, IfOk, option_map};
ghost use Rattle.request_info.specs.Parts.{texts_of};
ghost use Rattle.audit_core.specs.Route as spec;

use front_base::NoMemory;
use request_info::{parts_of, split};
use std::alloc::Global;

/// The group and the version of an API.
#[derive(Clone, Copy, Debug)]
pub struct Route<'p> {
    pub group: &'p str,
    pub version: &'p str,
}

const CORE: Route<'static> = Route {
    group: "",
    version: "v1",
};

fn group_route<'p>(parts: &[&'p str]) -> Option<Route<'p>>
    ensures { option_map spec.route_view result ≡ spec.group_route (texts_of parts.now) }
{
    match parts {
        [group, version, ..] => Some(Route { group, version }),
        _ => None,
    }
}

fn route_by<'p>(parts: &[&'p str]) -> Option<Route<'p>>
    ensures { option_map spec.route_view result ≡ spec.route_by (texts_of parts.now) }
{
    let [root, rest @ ..] = parts else {
        return None;
    };
    if *root == "api" {
        return Some(CORE);
    }
    if *root == "apis" {
        return group_route(rest);
    }
    None
}

/// The API that serves a decoded path.
pub fn route_of<'p>(alloc: Global, path: &'p str) -> Result<Option<Route<'p>>, NoMemory>
    ensures { IfOk result (λ route. option_map spec.route_view route ≡ spec.route_of path.now) }
{
    let cut = split(alloc, path)?;
    Ok(route_by(parts_of(cut.as_slice())))
}

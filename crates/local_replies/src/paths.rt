// The local paths, found by a router.
ghost use Rattle.std.specs.Prelude.{◌≡◌, [], IfOk, OnOk};
ghost use Rattle.local_replies.specs.Kind.{found_at};
ghost use Rattle.local_replies.specs.Paths.{first_of, local_of, table};
ghost use Rattle.local_replies.specs.Router.{rows_with, IsFree, IsLocalRouter};
ghost use Rattle.matchit.specs.Route.{parse_route};

use crate::kind::Kind;
use crate::local::Local;
use front_base::{NoMemory, trim_slashes};
use matchit::{InsertError, Router};
use std::alloc::Global;

// Adds a route that conflicts with none.
fn add(router: &mut Router<Kind>, route: &str, kind: Kind) -> Result<(), NoMemory>
    requires { IsFree (parse_route route.now) router.old }
    ensures { OnOk result (router.new ≡ rows_with (parse_route route.now) kind router.old) }
{
    match router.insert(route, kind) {
        Ok(()) => Ok(()),
        Err(InsertError::OutOfMemory) => Err(NoMemory),
        Err(_) => unreachable!(),
    }
}

fn fill(router: &mut Router<Kind>) -> Result<(), NoMemory>
    requires { router.old ≡ [] }
    ensures { OnOk result (IsLocalRouter router.new) }
{
    add(router, "healthz", Kind::Health)?;
    add(router, "livez", Kind::Health)?;
    add(router, "readyz", Kind::Health)?;
    add(router, "apis", Kind::GroupList)?;
    add(router, "apis/{group}", Kind::OneGroup)?;
    add(router, "apis/apiregistration.k8s.io/v1", Kind::ResourceList)?;
    add(
        router,
        "apis/apiregistration.k8s.io/v1/apiservices",
        Kind::AllServices,
    )?;
    add(
        router,
        "apis/apiregistration.k8s.io/v1/apiservices/{name}",
        Kind::OneService,
    )?;
    add(
        router,
        "apis/apiregistration.k8s.io/v1/{*rest}",
        Kind::Unserved,
    )?;
    Ok(())
}

fn router(alloc: Global) -> Result<Router<Kind>, NoMemory>
    ensures { IfOk result IsLocalRouter }
{
    let mut router = Router::new(alloc);
    match fill(&mut router) {
        Ok(()) => Ok(router),
        Err(fault) => {
            drop(router);
            Err(fault)
        }
    }
}

/// The paths that this server answers itself.
#[derive(Drop)]
pub struct LocalPaths {
    router: Router<Kind>,
    ghost local: { IsLocalRouter router },
}

impl LocalPaths {
    pub fn new(alloc: Global) -> Result<LocalPaths, NoMemory> {
        let router = router(alloc)?;
        Ok(LocalPaths { router })
    }

    // The kind of a path without slashes at its ends.
    fn kind_of(&self, text: &str) -> Option<Kind>
        ensures { found_at text.now result ≡ first_of table text.now }
    {
        match self.router.at(text) {
            Ok(found) => Some(*found.value),
            Err(_) => None,
        }
    }

    /// The local path that a decoded path is, if it is one.
    #[tactic(auto, unfolding(crate::specs::Paths::local_of))]
    pub fn local(&self, alloc: Global, path: &str) -> Result<Option<Local>, NoMemory>
        ensures { IfOk result (λ local. local ≡ local_of path.now) }
    {
        let text = trim_slashes(path);
        match self.kind_of(text) {
            Some(kind) => Ok(Some(kind.local_at(alloc, text)?)),
            None => Ok(None),
        }
    }
}

ghost use Rattle.std.specs.Prelude.{◌≡◌, ◌≤◌, ◌++◌, [], None, IfOk, OnOk, length, vec_capacity};
ghost use Rattle.role_threads.specs.Lists.{bays_in, logs_in, hooks_in, one_or_none, last_of};
ghost use Rattle.role_threads.specs.Ran.{RanOne};

use front_base::NoMemory;
use std::alloc::Global;
use std::sync::atomic::AtomicUsize;

/// What runs in a thread of its own.
pub trait Role<T> {
    /// What it is before and after.
    ghost ran: { Self → Self → Type 0 };

    /// Runs to its end. `ended` counts the bays that have ended, of which there are so many.
    fn run(&mut self, rt: &T, ended: &AtomicUsize, bays: usize)
        ensures { ran self.old self.new };
}

/// All that runs in a server.
#[derive(Drop)]
pub struct Roles<B, G, H> {
    pub bays: Vec<B>,
    /// The drainer of the log, in batch mode.
    pub log: Option<G>,
    /// The drainer of the webhook, in batch mode.
    pub hook: Option<H>,
}

// One of them.
#[derive(Drop)]
pub(crate) enum AnyRole<B, G, H> {
    Bay(B),
    Log(G),
    Hook(H),
}

impl<B, G, H> AnyRole<B, G, H> {
    pub(crate) fn run<T>(&mut self, rt: &T, ended: &AtomicUsize, bays: usize)
    where
        B: Role<T>,
        G: Role<T>,
        H: Role<T>,
        ensures { RanOne B.Role.ran G.Role.ran H.Role.ran self.old self.new }
    {
        match self {
            AnyRole::Bay(bay) => bay.run(rt, ended, bays),
            AnyRole::Log(drain) => drain.run(rt, ended, bays),
            AnyRole::Hook(drain) => drain.run(rt, ended, bays),
        }
    }
}

fn add_log<B: Drop, G: Drop, H: Drop>(
    all: &mut Vec<AnyRole<B, G, H>>,
    log: Option<G>,
) -> Result<(), NoMemory>
    ensures bays { OnOk result (bays_in all.new.items ≡ bays_in all.old.items) }
    ensures logs { OnOk result (logs_in all.new.items ≡ logs_in all.old.items ++ one_or_none log) }
    ensures hooks { OnOk result (hooks_in all.new.items ≡ hooks_in all.old.items) }
{
    match log {
        Some(drain) => {
            all.push(AnyRole::Log(drain))?;
            Ok(())
        }
        None => Ok(()),
    }
}

fn add_hook<B: Drop, G: Drop, H: Drop>(
    all: &mut Vec<AnyRole<B, G, H>>,
    hook: Option<H>,
) -> Result<(), NoMemory>
    ensures bays { OnOk result (bays_in all.new.items ≡ bays_in all.old.items) }
    ensures logs { OnOk result (logs_in all.new.items ≡ logs_in all.old.items) }
    ensures hooks { OnOk result (hooks_in all.new.items ≡ hooks_in all.old.items ++ one_or_none hook) }
{
    match hook {
        Some(drain) => {
            all.push(AnyRole::Hook(drain))?;
            Ok(())
        }
        None => Ok(()),
    }
}

fn list_bays<B: Drop, G: Drop, H: Drop>(
    alloc: Global,
    bays: Vec<B>,
) -> Result<Vec<AnyRole<B, G, H>>, NoMemory>
    ensures bays { IfOk result (λ all. bays_in all.items ≡ bays.items) }
    ensures none { IfOk result (λ all. (logs_in all.items ≡ []) × (hooks_in all.items ≡ [])) }
{
    let mut all = Vec::new(alloc);
    for bay in bays {
        all.push(AnyRole::Bay(bay))?;
    }
    Ok(all)
}

// All of them in one list, bays first.
pub(crate) fn list_roles<B: Drop, G: Drop, H: Drop>(
    alloc: Global,
    roles: Roles<B, G, H>,
) -> Result<Vec<AnyRole<B, G, H>>, NoMemory>
    ensures bays { IfOk result (λ all. bays_in all.items ≡ roles.bays.items) }
    ensures log { IfOk result (λ all. logs_in all.items ≡ one_or_none roles.log) }
    ensures hook { IfOk result (λ all. hooks_in all.items ≡ one_or_none roles.hook) }
{
    let Roles { bays, log, hook } = roles;
    let mut all = list_bays(alloc, bays)?;
    add_log(&mut all, log)?;
    add_hook(&mut all, hook)?;
    Ok(all)
}

// The roles of a list, for whose bays there is this room.
pub(crate) fn part_roles<B: Drop, G: Drop, H: Drop>(
    all: Vec<AnyRole<B, G, H>>,
    room: Vec<B>,
) -> Roles<B, G, H>
    requires room { (room.items ≡ []) × (length all.items ≤ vec_capacity room) }
    ensures bays { result.bays.items ≡ bays_in all.items }
    ensures log { result.log ≡ last_of None (logs_in all.items) }
    ensures hook { result.hook ≡ last_of None (hooks_in all.items) }
{
    let mut bays = room;
    let mut log = None;
    let mut hook = None;
    for role in all {
        match role {
            AnyRole::Bay(bay) => bays.push_reserved(bay),
            AnyRole::Log(drain) => log = Some(drain),
            AnyRole::Hook(drain) => hook = Some(drain),
        }
    }
    Roles { bays, log, hook }
}

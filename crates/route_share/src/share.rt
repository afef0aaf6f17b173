ghost use Rattle.std.specs.Prelude.{◌≡◌, ◌<◌, [], IfOk, length};
ghost use Rattle.apiservice_table.specs.Changes.{after};
ghost use Rattle.route_history.specs.History.{changes_of};
ghost use Rattle.shared_routes.specs.Shared.{IsNew, AreNew};

use front_base::NoMemory;
use left_right::{Absorb, ReadHandleFactory, WriteHandle};
use route_history::{
    HistoryPrefix, NamedRoutes, NewRoutes, NextChange, Prefix, RouteCopy, RouteName, TableCopy,
};
use route_writer::RouteWriter;
use shared_routes::SharedRoutes;
use std::alloc::Global;
use std::sync::ledger::{Blank, Ledger, Share};
use std::sync::{Arc, Mutex, Wait};

/// One bay's routes over the shared table of a name.
pub type BayRoutes<N, R> = SharedRoutes<HistoryPrefix<N>, N, RouteCopy<N>, NextChange<N>, R>;

/// The writer of the shared table of a name.
pub type BayWriter<N, R> = RouteWriter<HistoryPrefix<N>, N, RouteCopy<N>, NextChange<N>, R>;

/// A table that bays share.
#[derive(Drop)]
pub struct SharedTable<W, X> {
    /// Counts all changes at the end.
    pub writer: Arc<Mutex<W>>,
    /// Those of each bay, in their order.
    pub routes: Vec<X>,
}

// Routes for the bay of that number.
fn one_bay<
    P: Prefix,
    L: Ledger,
    T: TableCopy<P, O> + Absorb<O, State = P>,
    O: Drop,
    R: Wait + Copy + Drop,
>(
    rt: R,
    alloc: Global,
    writer: &Arc<Mutex<RouteWriter<P, L, T, O, R>>>,
    readers: &ReadHandleFactory<T>,
    prefix: &P,
    bay: u64,
    share: Share<L>,
) -> Result<SharedRoutes<P, L, T, O, R>, NoMemory>
    requires rows_are { (copy : T) → T.rows copy ≡ after P.opening (changes_of (P.history (T.shows copy)).entries) }
    requires fresh { (P.history prefix.now).entries ≡ [] }
    requires share { (share.parts ≡ 1) × (share.amount ≡ 0) }
    ensures { IfOk result (λ routes. IsNew P.home P.opening bay routes) }
{
    let writer = Arc::try_clone(writer)?;
    let reader = readers.handle()?;
    Ok(SharedRoutes::new(
        rt,
        writer,
        reader,
        prefix.copy(),
        bay,
        Vec::new(alloc),
        share,
    ))
}

// Routes for so many bays, with one part of the share for each.
fn each_bay<
    P: Prefix,
    L: Ledger,
    T: TableCopy<P, O> + Absorb<O, State = P>,
    O: Drop,
    R: Wait + Copy + Drop,
>(
    rt: R,
    alloc: Global,
    writer: &Arc<Mutex<RouteWriter<P, L, T, O, R>>>,
    readers: &ReadHandleFactory<T>,
    prefix: &P,
    rest: &mut Share<L>,
    bays: u16,
) -> Result<Vec<SharedRoutes<P, L, T, O, R>>, NoMemory>
    requires rows_are { (copy : T) → T.rows copy ≡ after P.opening (changes_of (P.history (T.shows copy)).entries) }
    requires fresh { (P.history prefix.now).entries ≡ [] }
    requires parts { rest.old.parts ≡ bays }
    requires none { rest.old.amount ≡ 0 }
    ensures count { IfOk result (λ routes. length routes.items ≡ bays) }
    ensures fresh { IfOk result (λ routes. AreNew P.home P.opening 0 routes.items) }
{
    let mut all = Vec::new(alloc);
    for _ in 0..bays {
        let bay = all.len() as u64;
        let share = rest.split_off(1, 0);
        all.push(one_bay(rt, alloc, writer, readers, prefix, bay, share)?)?;
    }
    Ok(all)
}

/// Routes for so many bays over one table, under a name that fits it. All have one history: a change that is made through any
/// of them is made for all, and counted in a ledger of as many parts as there are bays.
pub fn share_routes<N: RouteName, R: Wait + Copy + Drop>(
    rt: R,
    alloc: Global,
    routes: NewRoutes,
    blank: Blank,
    bays: u16,
) -> Result<SharedTable<BayWriter<N, R>, BayRoutes<N, R>>, NoMemory>
    requires home { routes.home ≡ N.home }
    requires opening { routes.opening ≡ N.opening }
    requires ledger { (blank.name ≡ N.name) × (blank.parts ≡ N.parts) }
    requires parts { blank.parts ≡ bays }
    ensures count { IfOk result (λ table. length table.routes.items ≡ bays) }
    ensures fresh { IfOk result (λ table. AreNew N.home N.opening 0 table.routes.items) }
{
    let NamedRoutes {
        head,
        prefix,
        first,
        second,
    } = routes.named::<N>();
    let (made, mut rest) = blank.open::<N>();
    let none = rest.empty();
    let most = usize::from(bays.max(1));
    let copies: WriteHandle<RouteCopy<N>, NextChange<N>, R> = WriteHandle::new(
        alloc, rt, first, second, most,
    )?;
    let readers = copies.factory()?;
    let writer = Arc::new(
        alloc,
        Mutex::new(RouteWriter::new(copies, head, made, none)),
    )?;
    let routes = each_bay(rt, alloc, &writer, &readers, &prefix, &mut rest, bays)?;
    Ok(SharedTable { writer, routes })
}

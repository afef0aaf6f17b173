ghost use Rattle.std.specs.Prelude.{◌≡◌, ◌^◌, ◌+◌, ◌<◌, ◌++◌, ◌∷◌, [], true, List, length, min, is_some, None, IfOk, IfErr, IfSome, OnOk, OnErr};
ghost use Rattle.std.specs.Fn.{FnReturnsAt};
ghost use mathlib.Core.List.{IsPrefix};
ghost use Rattle.apiservice_table.specs.Changes.{after, left_by, refusal, IsDue, IsLater, Took};
ghost use Rattle.apiservice_table.specs.Table.{Table};
ghost use Rattle.route_history.specs.History.{changes_of};
ghost use Rattle.shared_routes.specs.Makers.{IsWithin};
ghost use Rattle.shared_routes.specs.Shared.{IsNew, own_changes, seen_changes};

use apiservice_rows::{Row, Rows};
use apiservice_table::{Change, ChangeFault, RouteTable, Routes};
use front_base::{Bytes, NoMemory};
use left_right::{Absorb, ReadHandle};
use route_history::{Entry, Prefix, SeenHistory, TableCopy, answers};
use route_writer::{RouteWriter, change_locked, look};
use std::alloc::Global;
use std::marker::{Model, PhantomData};
use std::sync::ledger::{Ledger, Share};
use std::sync::{Arc, Mutex, Wait};

/// One bay's routes over a table that all bays share. Look-ups take no lock, and changes one. Contracts see which history the
/// changes are of, the rows before any change, the number of the bay, the entries that were seen, and the places of its own ones.
#[derive(Drop)]
pub struct SharedRoutes<
    P: Prefix,
    L: Ledger,
    T: TableCopy<P, O> + Absorb<O, State = P>,
    O: Drop,
    R: Wait + Copy + Drop,
> {
    rt: R,
    writer: Arc<Mutex<RouteWriter<P, L, T, O, R>>>,
    reader: ReadHandle<T>,
    prefix: P,
    // The number that its own entries have.
    bay: u64,
    // The places of its own entries in the history.
    places: Vec<u64>,
    // Counts its own entries.
    share: Share<L>,
    ghost rows_are: { (copy : T) → T.rows copy ≡ after P.opening (changes_of (P.history (T.shows copy)).entries) },
}

impl<
    P: Prefix,
    L: Ledger,
    T: TableCopy<P, O> + Absorb<O, State = P>,
    O: Drop,
    R: Wait + Copy + Drop,
> Model for SharedRoutes<P, L, T, O, R> {
    ghost use Rattle.std.specs.Prelude.{◌≡◌, true, length};
    ghost use Rattle.shared_routes.specs.Makers.{are_made_by};
    ghost use Rattle.shared_routes.specs.Shared as spec;

    ghost Value = { spec.Shared };

    ghost view = { λ r. record {
      home = (P.history r.prefix).home;
      opening = P.opening;
      bay = r.bay;
      entries = (P.history r.prefix).entries;
      places = r.places.items;
    } };

    ghost invariant = { λ r.
        ((P.history r.prefix).home ≡ P.home)
        × (r.share.parts ≡ 1)
        × (r.share.amount ≡ length r.places.items)
        × (are_made_by r.bay 0 r.places.items (P.history r.prefix).entries ≡ true) };
}

impl<
    P: Prefix,
    L: Ledger,
    T: TableCopy<P, O> + Absorb<O, State = P>,
    O: Drop,
    R: Wait + Copy + Drop,
> SharedRoutes<P, L, T, O, R> {
    /// Routes of the bay of that number, which have seen no change, with a share of one part that counts none.
    pub fn new(
        rt: R,
        writer: Arc<Mutex<RouteWriter<P, L, T, O, R>>>,
        reader: ReadHandle<T>,
        prefix: P,
        bay: u64,
        places: Vec<u64>,
        share: Share<L>,
    ) -> SharedRoutes<P, L, T, O, R>
        requires rows_are { (copy : T) → T.rows copy ≡ after P.opening (changes_of (P.history (T.shows copy)).entries) }
        requires none { ((P.history prefix).entries ≡ []) × (places.items ≡ []) }
        requires share { (share.parts ≡ 1) × (share.amount ≡ 0) }
        ensures { IsNew P.home P.opening bay result }
    {
        prefix.size();
        SharedRoutes {
            rt,
            writer,
            reader,
            prefix,
            bay,
            places,
            share,
        }
    }

    /// What the type keeps: which history its changes are of, and the rows before any change.
    pub fn tells_its_home(&self)
        ensures home { self.now.home ≡ P.home }
        ensures opening { self.now.opening ≡ P.opening }
    {
        self.prefix.size();
    }

    /// The prefix of the history that was seen.
    pub fn prefix(&self) -> P
        ensures { P.history result ≡ record { home = self.now.home; entries = self.now.entries } }
    {
        self.prefix.copy()
    }

    /// What was seen, without the name of the history. What the share counts joins others. They fit as long as each bay has its
    /// number, and saw no more than this prefix.
    pub fn into_seen(
        self,
        whole: &P,
        number: u64,
        fits: &mut bool,
        all: &mut Share<L>,
    ) -> SeenHistory
        ensures home { result.home ≡ self.home }
        ensures entries { result.entries ≡ self.entries }
        ensures parts { all.new.parts ≡ all.old.parts + 1 }
        ensures amount { all.new.amount ≡ all.old.amount + length self.places }
        ensures within { fits.new ≡ true → (fits.old ≡ true) × (self.bay ≡ number) × IsWithin (P.history whole.now).entries self }
    {
        let SharedRoutes {
            prefix,
            bay,
            share,
            ..
        } = self;
        all.merge(share);
        if bay != number || prefix.size() > whole.size() {
            *fits = false;
            return prefix.unnamed();
        }
        let _ = prefix.later(whole);
        prefix.unnamed()
    }

    // Asks the table that is published, which is then seen.
    fn look<A, F: Fn(&RouteTable) -> A>(&mut self, ask: F) -> A
        requires { F.IsAlwaysCallable ask }
        ensures later { IsLater (seen_changes self.old) (seen_changes self.new) }
        ensures keeps { (self.new.home ≡ self.old.home) × (self.new.opening ≡ self.old.opening) × (own_changes self.new ≡ own_changes self.old) }
        ensures makes { (self.new.bay ≡ self.old.bay) × (self.new.places ≡ self.old.places) }
        ensures answer { (t : Table) × (t.rows ≡ after self.new.opening (seen_changes self.new)) × FnReturnsAt F.Fn ask t result }
    {
        let SharedRoutes {
            rt,
            reader,
            prefix,
            ..
        } = self;
        look::<P, T, O, R, A, F>(rt, reader, prefix, &ask, PhantomData)
    }
}

impl<
    P: Prefix,
    L: Ledger,
    T: TableCopy<P, O> + Absorb<O, State = P>,
    O: Drop,
    R: Wait + Copy + Drop,
> Routes for SharedRoutes<P, L, T, O, R> {
    ghost opening = { λ r. r.opening };

    ghost seen = { λ r. seen_changes r };

    ghost own = { λ r. own_changes r };

    fn find(&mut self, alloc: Global, group: &str, version: &str) -> Result<Option<Row>, NoMemory> {
        self.look(|table| answers::find(alloc, table, group, version))
    }

    fn list(&mut self, alloc: Global) -> Result<Rows, NoMemory> {
        self.look(|table| answers::list(alloc, table))
    }

    fn has(&mut self, group: &str, version: &str) -> bool {
        self.look(|table| answers::has(table, group, version))
    }

    fn object(&mut self, alloc: Global, name: &str) -> Result<Option<Bytes>, NoMemory> {
        self.look(|table| answers::object(alloc, table, name))
    }

    fn named(&mut self, alloc: Global, name: &str) -> Result<Option<Row>, NoMemory> {
        self.look(|table| answers::named(alloc, table, name))
    }

    fn service_list(&mut self, alloc: Global) -> Result<Bytes, NoMemory> {
        self.look(|table| answers::service_list(alloc, table))
    }

    fn group_list(&mut self, alloc: Global) -> Result<Bytes, NoMemory> {
        self.look(|table| answers::group_list(alloc, table))
    }

    fn group(&mut self, alloc: Global, name: &str) -> Result<Option<Bytes>, NoMemory> {
        self.look(|table| answers::group(alloc, table, name))
    }

    fn change(&mut self, alloc: Global, change: Change) -> Result<Option<Bytes>, ChangeFault> {
        let SharedRoutes {
            rt,
            writer,
            prefix,
            bay,
            places,
            share,
            ..
        } = self;
        places.reserve(1)?;
        let entry = Entry { bay: *bay, change };
        let left = change_locked(rt, alloc, writer, prefix, share, entry)?;
        places.push_reserved(prefix.size() - 1);
        Ok(left)
    }

    fn seen_count(&self) -> u64 {
        self.prefix.size()
    }
}

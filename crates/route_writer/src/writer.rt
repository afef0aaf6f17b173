ghost use Rattle.std.specs.Prelude.{◌≡◌, ◌+◌, ◌<◌, ◌^◌, ◌++◌, ◌∷◌, [], false, List, None, length, IfErr, IfOk, MatchBool, OnOk, OnErr};
ghost use mathlib.Core.List.{IsPrefix};
ghost use Rattle.apiservice_table.specs.Changes.{after, left_by, refusal, IsDue};
ghost use Rattle.apiservice_table.specs.declared.change.ChangeFault.TheVariants as fault;
ghost use Rattle.left_right.specs.Handles.{published, pending};
ghost use Rattle.route_history.specs.History.{changes_of};
ghost use Rattle.route_history.specs.declared.entry.Entry.{Entry};

use apiservice_table::{ChangeFault, the_last_change_counts};
use front_base::Bytes;
use left_right::{Absorb, WriteHandle};
use route_history::{Entry, Prefix, TableCopy};
use std::alloc::Global;
use std::sync::ledger::{Book, Ledger, Share};
use std::sync::{Mutex, Wait};

// The most changes of a history.
const MOST_CHANGES: u64 = 1 << 62;

/// The one writer of shared routes, which stands behind a lock. Once a publish was refused it is closed: it publishes no more.
/// Whoever makes a change counts it in a share of the writer's ledger.
#[derive(Drop)]
pub struct RouteWriter<
    P: Prefix,
    L: Ledger,
    T: TableCopy<P, O> + Absorb<O, State = P>,
    O: Drop,
    R: Wait + Copy + Drop,
> {
    /// The two copies of the table.
    pub copies: WriteHandle<T, O, R>,
    head: P::Head,
    // The total of all shares.
    made: Book<L>,
    // A share that counts nothing.
    none: Share<L>,
    closed: bool,
    ghost open: { closed ≡ false → pending copies ≡ [] },
    ghost counted: { made.total ≡ length (P.history (T.shows (published copies))).entries },
    ghost state_is: { (copy : T) → T.state copy ≡ T.shows copy },
    ghost applied_is: { (prefix : P) (next : O) → T.applied prefix next ≡ T.reaches next },
    ghost rows_are: { (copy : T) → T.rows copy ≡ after P.opening (changes_of (P.history (T.shows copy)).entries) },
}

impl<
    P: Prefix,
    L: Ledger,
    T: TableCopy<P, O> + Absorb<O, State = P>,
    O: Drop,
    R: Wait + Copy + Drop,
> RouteWriter<P, L, T, O, R> {
    /// A writer over two copies of which nothing waits to be published, and a ledger whose total is the number of their changes.
    pub fn new(
        copies: WriteHandle<T, O, R>,
        head: P::Head,
        made: Book<L>,
        none: Share<L>,
    ) -> RouteWriter<P, L, T, O, R>
        requires pending { pending copies ≡ [] }
        requires counted { made.total ≡ length (P.history (T.shows (published copies))).entries }
        requires state_is { (copy : T) → T.state copy ≡ T.shows copy }
        requires applied_is { (prefix : P) (next : O) → T.applied prefix next ≡ T.reaches next }
        requires rows_are { (copy : T) → T.rows copy ≡ after P.opening (changes_of (P.history (T.shows copy)).entries) }
    {
        RouteWriter {
            copies,
            head,
            made,
            none,
            closed: false,
        }
    }

    // Publishes the last entry of a prefix, which has one more than what is published, and counts it in the share.
    fn publish(&mut self, mine: &mut Share<L>, entry: Entry, next: P) -> bool
        requires open { self.old.closed ≡ false }
        requires part { 0 < mine.old.parts }
        requires last { (before : List Entry) × ((P.history next).entries ≡ before ++ entry ∷ []) }
        requires one { length (P.history next).entries ≡ length (P.history (T.shows (published self.old.copies))).entries + 1 }
        ensures shows { MatchBool result (T.shows (published self.new.copies) ≡ next)
            (published self.new.copies ≡ published self.old.copies) }
        ensures counted { MatchBool result (mine.new.amount ≡ mine.old.amount + 1) (mine.new.amount ≡ mine.old.amount) }
        ensures parts { mine.new.parts ≡ mine.old.parts }
    {
        let RouteWriter {
            copies,
            made,
            closed,
            ..
        } = self;
        if copies.append(T::next(entry, next)).is_err() {
            *closed = true;
            return false;
        }
        if copies.publish().is_err() {
            *closed = true;
            return false;
        }
        made.add(mine, 1);
        true
    }

    // Makes a change that no row refuses, after all that is published, which the caller has seen.
    fn add(&mut self, me: &mut P, mine: &mut Share<L>, entry: Entry) -> Result<(), ChangeFault>
        requires few { length (P.history me.old).entries < 2 ^ 62 }
        requires part { 0 < mine.old.parts }
        requires seen { P.history me.old ≡ P.history (T.shows (published self.old.copies)) }
        requires due { refusal (after P.opening (changes_of (P.history me.old).entries)) entry.change ≡ None }
        ensures done { OnOk result ((P.history me.new).entries ≡ (P.history me.old).entries ++ entry ∷ []) }
        ensures home { (P.history me.new).home ≡ (P.history me.old).home }
        ensures shown { OnOk result (P.history (T.shows (published self.new.copies)) ≡ P.history me.new) }
        ensures refused { OnErr result ((P.history me.new ≡ P.history me.old) × (published self.new.copies ≡ published self.old.copies)) }
        ensures memory { IfErr result (λ e. e ≡ fault.NoMemory) }
        ensures counted { OnOk result (mine.new.amount ≡ mine.old.amount + 1) }
        ensures same { OnErr result (mine.new.amount ≡ mine.old.amount) }
        ensures parts { mine.new.parts ≡ mine.old.parts }
    {
        if self.closed {
            return Err(ChangeFault::NoMemory);
        }
        let mut next = me.copy();
        if !next.add(&self.head, &entry) {
            self.closed = true;
            return Err(ChangeFault::NoMemory);
        }
        let told = next.copy();
        if !self.publish(mine, entry, next) {
            return Err(ChangeFault::NoMemory);
        }
        *me = told;
        Ok(())
    }

    /// Makes a change after all that is published, or refuses it, and has the caller see what it was decided on. A patch answers
    /// the object that it left, copied before it was made. One that is made is counted in the share, and no other.
    pub fn change(
        &mut self,
        alloc: Global,
        me: &mut P,
        mine: &mut Share<L>,
        entry: Entry,
    ) -> Result<Option<Bytes>, ChangeFault>
        requires part { 0 < mine.old.parts }
        ensures left { IfOk result (λ left. left ≡ left_by entry.change (after P.opening (changes_of (P.history me.new).entries))) }
        ensures later { IsPrefix (P.history me.old).entries (P.history me.new).entries }
        ensures home { (P.history me.new).home ≡ P.home }
        ensures took { OnOk result ((before : List Entry) × IsPrefix (P.history me.old).entries before
            × ((P.history me.new).entries ≡ before ++ entry ∷ [])
            × (refusal (after P.opening (changes_of before)) entry.change ≡ None)) }
        ensures shown { OnOk result (P.history (T.shows (published self.new.copies)) ≡ P.history me.new) }
        ensures refused { IfErr result (λ e. IsDue e (refusal (after P.opening (changes_of (P.history me.new).entries)) entry.change)) }
        ensures kept { OnErr result (published self.new.copies ≡ published self.old.copies) }
        ensures counted { OnOk result (mine.new.amount ≡ mine.old.amount + 1) }
        ensures same { OnErr result (mine.new.amount ≡ mine.old.amount) }
        ensures parts { mine.new.parts ≡ mine.old.parts }
    {
        let copy = self.copies.published();
        let shown = copy.prefix();
        let len = me.size();
        if shown.size() >= MOST_CHANGES || len > shown.size() {
            return Err(ChangeFault::NoMemory);
        }
        the_last_change_counts();
        let seen = me.later(shown);
        let tried = copy.table().try_change(alloc, &entry.change);
        *me = seen;
        match tried {
            Err(fault) => Err(fault),
            Ok(left) => match self.add(me, mine, entry) {
                Ok(()) => Ok(left),
                Err(fault) => Err(fault),
            },
        }
    }

    /// The prefix that is published.
    pub fn published_prefix(&self) -> P
        ensures { P.history result ≡ P.history (T.shows (published self.now.copies)) }
    {
        self.copies.published().prefix().copy()
    }

    /// A share that counts nothing.
    pub fn empty_share(&mut self) -> Share<L>
        ensures parts { result.parts ≡ 0 }
        ensures amount { result.amount ≡ 0 }
        ensures kept { published self.new.copies ≡ published self.old.copies }
    {
        self.none.empty()
    }

    /// All shares together count the changes that are published.
    pub fn audit(&mut self, all: &mut Share<L>)
        requires whole { all.old.parts ≡ L.parts }
        ensures { all.old.amount ≡ length (P.history (T.shows (published self.old.copies))).entries }
    {
        self.made.audit(all);
    }
}

/// Makes a change while no other bay makes one, or refuses it, and has the caller see what it was decided on. One that is made is
/// counted in the share, and no other.
pub fn change_locked<
    P: Prefix,
    L: Ledger,
    T: TableCopy<P, O> + Absorb<O, State = P>,
    O: Drop,
    R: Wait + Copy + Drop,
>(
    rt: &R,
    alloc: Global,
    writer: &Mutex<RouteWriter<P, L, T, O, R>>,
    prefix: &mut P,
    mine: &mut Share<L>,
    entry: Entry,
) -> Result<Option<Bytes>, ChangeFault>
    requires part { 0 < mine.old.parts }
    ensures left { IfOk result (λ left. left ≡ left_by entry.change (after P.opening (changes_of (P.history prefix.new).entries))) }
    ensures later { IsPrefix (P.history prefix.old).entries (P.history prefix.new).entries }
    ensures home { (P.history prefix.new).home ≡ P.home }
    ensures took { OnOk result ((before : List Entry) × IsPrefix (P.history prefix.old).entries before
        × ((P.history prefix.new).entries ≡ before ++ entry ∷ [])
        × (refusal (after P.opening (changes_of before)) entry.change ≡ None)) }
    ensures refused { IfErr result (λ e. IsDue e (refusal (after P.opening (changes_of (P.history prefix.new).entries)) entry.change)) }
    ensures counted { OnOk result (mine.new.amount ≡ mine.old.amount + 1) }
    ensures same { OnErr result (mine.new.amount ≡ mine.old.amount) }
    ensures parts { mine.new.parts ≡ mine.old.parts }
{
    let mut writer = writer.lock(rt);
    writer.change(alloc, prefix, mine, entry)
}

ghost use Rattle.std.specs.Prelude.{◌≡◌, IfSome};
ghost use Rattle.std.specs.Fn.{FnReturnsAt};
ghost use mathlib.Core.List.{IsPrefix};
ghost use Rattle.apiservice_table.specs.Changes.{after};
ghost use Rattle.apiservice_table.specs.Table.{Table};
ghost use Rattle.route_history.specs.History.{changes_of};

use apiservice_table::RouteTable;
use left_right::ReadHandle;
use route_history::{Prefix, TableCopy};
use std::marker::PhantomData;
use std::sync::Wait;

// What a look-up gives: the prefix that the table was after, and its answer.
struct Looked<P, A> {
    prefix: P,
    answer: A,
}

// Asks the table that is published, where that is no older than what was seen.
fn try_look<P: Prefix, T: TableCopy<P, O>, O: Drop, A, F: Fn(&RouteTable) -> A>(
    reader: &mut ReadHandle<T>,
    seen: &P,
    ask: &F,
    of: PhantomData<O>,
) -> Option<Looked<P, A>>
    requires { F.IsAlwaysCallable ask.now }
    ensures later { IfSome result (λ r. IsPrefix (P.history seen.now).entries (P.history r.prefix).entries) }
    ensures home { IfSome result (λ r. (P.history r.prefix).home ≡ P.home) }
    ensures answer { IfSome result (λ r. (copy : T) × (P.history r.prefix ≡ P.history (T.shows copy))
        × ((t : Table) × (t.rows ≡ T.rows copy) × FnReturnsAt F.Fn ask.now t r.answer)) }
{
    let guard = reader.enter()?;
    let copy: &T = &guard;
    let prefix = copy.prefix();
    if prefix.size() < seen.size() {
        return None;
    }
    let answer = ask(copy.table());
    Some(Looked {
        prefix: seen.later(prefix),
        answer,
    })
}

/// Asks the table that is published, which is then seen. It takes no lock.
pub fn look<P: Prefix, T: TableCopy<P, O>, O: Drop, R: Wait, A, F: Fn(&RouteTable) -> A>(
    rt: &R,
    reader: &mut ReadHandle<T>,
    seen: &mut P,
    ask: &F,
    of: PhantomData<O>,
) -> A
    requires callable { F.IsAlwaysCallable ask.now }
    requires rows_are { (copy : T) → T.rows copy ≡ after P.opening (changes_of (P.history (T.shows copy)).entries) }
    ensures later { IsPrefix (P.history seen.old).entries (P.history seen.new).entries }
    ensures home { (P.history seen.new).home ≡ P.home }
    ensures answer { (t : Table) × (t.rows ≡ after P.opening (changes_of (P.history seen.new).entries)) × FnReturnsAt F.Fn ask.now t result }
{
    for _ in rt.forever() {
        // A copy is never older than what was seen: no type says so.
        if let Some(looked) = try_look::<P, T, O, A, F>(reader, seen, ask, of) {
            let Looked { prefix, answer } = looked;
            *seen = prefix;
            return answer;
        }
    }
    unreachable!()
}

ghost use Rattle.std.specs.Prelude.{◌≡◌, ℕ, ◌-◌, ◌^◌, List, min, length, is_some, IfOk, IfErr, OnOk, OnErr};
ghost use Rattle.apiservice_rows.specs.Row.{Row};
ghost use Rattle.apiservice_table.specs.Changes.{after, left_by, refusal, IsDue, IsLater, Took};
ghost use Rattle.apiservice_table.specs.Services as services;
ghost use Rattle.apiservice_table.specs.Table as spec;
ghost use Rattle.discovery_merge.specs.Documents.{group_list_text, group_text};

use crate::change::{Change, ChangeFault};
use apiservice_rows::{Row, Rows};
use front_base::{Bytes, NoMemory};
use std::alloc::Global;

/// A table as one user of it sees it, which others may change too. Each call sees one table; between two calls others may
/// change it.
pub trait Routes {
    ghost use Rattle.apiservice_table.specs.declared.change.Change.{Change};

    /// The rows before any change, which no call changes.
    ghost opening: { Self → List Row };

    /// The changes that were seen, in order.
    ghost seen: { Self → List Change };

    /// Its own changes, each with its place among those that were seen. Only `change` adds one.
    ghost own: { Self → List (ℕ × Change) };

    /// A copy of the row of that group and version, after the changes that are seen then.
    fn find(&mut self, alloc: Global, group: &str, version: &str) -> Result<Option<Row>, NoMemory>
        ensures found { IfOk result (λ found.
            found ≡ spec.row group.now version.now (after (opening self.new) (seen self.new))) }
        ensures later { IsLater (seen self.old) (seen self.new) }
        ensures keeps { (opening self.new ≡ opening self.old) × (own self.new ≡ own self.old) };

    /// A copy of the rows in byte order of names, after the changes that are seen then.
    fn list(&mut self, alloc: Global) -> Result<Rows, NoMemory>
        ensures rows { IfOk result (λ rows. rows ≡ after (opening self.new) (seen self.new)) }
        ensures later { IsLater (seen self.old) (seen self.new) }
        ensures keeps { (opening self.new ≡ opening self.old) × (own self.new ≡ own self.old) };

    /// Whether a row of that group and version is there, after the changes that are seen then. It takes no memory.
    fn has(&mut self, group: &str, version: &str) -> bool
        ensures has { result
            ≡ is_some (spec.row group.now version.now (after (opening self.new) (seen self.new))) }
        ensures later { IsLater (seen self.old) (seen self.new) }
        ensures keeps { (opening self.new ≡ opening self.old) × (own self.new ≡ own self.old) };

    /// A copy of the object of the APIService of that name, after the changes that are seen then.
    fn object(&mut self, alloc: Global, name: &str) -> Result<Option<Bytes>, NoMemory>
        ensures found { IfOk result (λ found.
            found ≡ services.object_named name.now (after (opening self.new) (seen self.new))) }
        ensures later { IsLater (seen self.old) (seen self.new) }
        ensures keeps { (opening self.new ≡ opening self.old) × (own self.new ≡ own self.old) };

    /// A copy of the row of the APIService of that name, after the changes that are seen then.
    fn named(&mut self, alloc: Global, name: &str) -> Result<Option<Row>, NoMemory>
        ensures found { IfOk result (λ found.
            found ≡ spec.row_named name.now (after (opening self.new) (seen self.new))) }
        ensures later { IsLater (seen self.old) (seen self.new) }
        ensures keeps { (opening self.new ≡ opening self.old) × (own self.new ≡ own self.old) };

    /// The `APIServiceList` of all rows, after the changes that are seen then.
    fn service_list(&mut self, alloc: Global) -> Result<Bytes, NoMemory>
        ensures text { IfOk result (λ text.
            text ≡ services.service_list_text (after (opening self.new) (seen self.new))) }
        ensures later { IsLater (seen self.old) (seen self.new) }
        ensures keeps { (opening self.new ≡ opening self.old) × (own self.new ≡ own self.old) };

    /// A copy of the `APIGroupList` of `/apis`, after the changes that are seen then.
    fn group_list(&mut self, alloc: Global) -> Result<Bytes, NoMemory>
        ensures text { IfOk result (λ text. text ≡ group_list_text (after (opening self.new) (seen self.new))) }
        ensures later { IsLater (seen self.old) (seen self.new) }
        ensures keeps { (opening self.new ≡ opening self.old) × (own self.new ≡ own self.old) };

    /// A copy of the `APIGroup` of that name, where a row has the group, after the changes that are seen then.
    fn group(&mut self, alloc: Global, name: &str) -> Result<Option<Bytes>, NoMemory>
        ensures found { IfOk result (λ found.
            found ≡ group_text name.now (after (opening self.new) (seen self.new))) }
        ensures later { IsLater (seen self.old) (seen self.new) }
        ensures keeps { (opening self.new ≡ opening self.old) × (own self.new ≡ own self.old) };

    /// Makes a change, or refuses it by what is seen then. A patch answers the object that it left, copied before it was made.
    fn change(&mut self, alloc: Global, change: Change) -> Result<Option<Bytes>, ChangeFault>
        ensures left { IfOk result (λ left. left ≡ left_by change (after (opening self.new) (seen self.new))) }
        ensures took { OnOk result
            (Took (opening self.old) (seen self.old) (own self.old) change (seen self.new) (own self.new)) }
        ensures refused { IfErr result (λ e.
            IsDue e (refusal (after (opening self.new) (seen self.new)) change)) }
        ensures kept { OnErr result (own self.new ≡ own self.old) }
        ensures later { IsLater (seen self.old) (seen self.new) }
        ensures fixed { opening self.new ≡ opening self.old };

    /// How many changes were seen. The count stands at its type's end.
    fn seen_count(&self) -> u64
        ensures { result ≡ min (length (seen self.now)) (2 ^ 64 - 1) };
}

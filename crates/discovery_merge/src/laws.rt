ghost use Rattle.std.specs.Prelude.{◌≡◌, List};
ghost use Rattle.std.specs.Cmp.{IsTotalOrder};
ghost use Rattle.std.specs.List.Sorted.{IsSorted, IsStable};
ghost use Rattle.std.specs.declared.cmp.Ordering.{Ordering};
ghost use Rattle.apiservice_rows.specs.Row.{Row};
ghost use Rattle.discovery_merge.specs.Order as spec;

use front_base::versions_are_ordered;

/// The order of groups and that of the versions in a group are total.
pub fn orders_are_total()
    ensures groups { IsTotalOrder spec.group_order }
    ensures versions { IsTotalOrder spec.preference_order }
{
    versions_are_ordered();
}

/// Rows that are sorted by a total order are in order, those that tie stay in theirs, and no other list is so.
pub fn one_stable_sort()
    ensures sorted { (order : Row → Row → Ordering) (rows : List Row)
        → IsTotalOrder order → IsSorted order (spec.sorted order rows) }
    ensures stable { (order : Row → Row → Ordering) (rows : List Row)
        → IsTotalOrder order → IsStable order rows (spec.sorted order rows) }
    ensures alone { (order : Row → Row → Ordering) (rows other : List Row)
        → IsTotalOrder order → IsSorted order other → IsStable order rows other → other ≡ spec.sorted order rows }
{}

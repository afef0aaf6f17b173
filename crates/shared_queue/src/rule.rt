//! The rule of the queue, and what each step tells the pass that makes it.

use crate::views::View;
use crossbeam_queue::RuledArrayQueue;
use crossbeam_queue::protocol::{Join, Lesson, Outcome, Protocol, Split};
use front_base::Line;
use std::marker::{Brand, PhantomData};

/// The rule: the lines that were pushed are those that were taken and then those that the queue holds. Each pass knows its
/// part of them.
pub struct LinesKept;

impl Protocol<Line, View> for LinesKept {
    ghost use Rattle.shared_queue.specs.Rule.{Kept, opening};

    ghost holds = { Kept };

    ghost first = { opening };
}

/// The queue of lines that lanes push to.
pub type LineQueue = RuledArrayQueue<Line, View, LinesKept>;

/// A push by a lane, and what it learns where the queue refuses it.
pub struct LanePush;

impl Outcome<Line, View> for LanePush {
    ghost use Rattle.std.specs.Prelude.{◌≡◌};
    ghost use Rattle.shared_queue.specs.Rule.{pushed};

    ghost then = { λ v x w. w ≡ pushed v x };
}

impl Lesson<Line, View> for LanePush {
    ghost use Rattle.shared_queue.specs.Rule.{Crowded};

    ghost fact = { Crowded };
}

/// A pop by the outlet, while lanes push.
pub struct OutletPop;

impl Outcome<Line, View> for OutletPop {
    ghost use Rattle.std.specs.Prelude.{◌≡◌};
    ghost use Rattle.shared_queue.specs.Rule.{popped};

    ghost then = { λ v x w. w ≡ popped v x };
}

impl Lesson<Line, View> for OutletPop {
    ghost use Rattle.std.specs.Prelude.{⊤};

    ghost fact = { λ v items. ⊤ };
}

/// A pop where no lane is left: what each bay accepted, what was taken and what is left are known at that step.
pub struct EndPop;

impl Outcome<Line, View> for EndPop {
    ghost use Rattle.std.specs.Prelude.{◌≡◌, List, ◌∷◌};
    ghost use Rattle.front_base.specs.Line as base;
    ghost use Rattle.shared_queue.specs.Rule.{popped, Accounts};

    ghost then = { λ v x w. (w ≡ popped v x) × ((items : List base.Line) × Accounts v (x ∷ items)) };
}

impl Lesson<Line, View> for EndPop {
    ghost use Rattle.shared_queue.specs.Rule.{Accounts};

    ghost fact = { Accounts };
}

/// A new lane leaves the maker.
pub struct NewLane;

impl Split<View> for NewLane {
    ghost use Rattle.shared_queue.specs.Rule.{with_lane, new_lane};

    ghost left = { with_lane };

    ghost right = { new_lane };
}

/// The outlet leaves the maker.
pub struct NewOutlet;

impl Split<View> for NewOutlet {
    ghost use Rattle.shared_queue.specs.Rule.{without_outlet, new_outlet};

    ghost left = { without_outlet };

    ghost right = { new_outlet };
}

/// A lane comes back to the maker.
pub struct LaneBack;

impl Join<View> for LaneBack {
    ghost use Rattle.shared_queue.specs.Rule as rule;

    ghost both = { rule.with_ended };

    ghost spent = { rule.spent };
}

/// The outlet comes back to the maker.
pub struct OutletBack;

impl Join<View> for OutletBack {
    ghost use Rattle.shared_queue.specs.Rule as rule;

    ghost both = { rule.with_outlet };

    ghost spent = { rule.spent };
}

/// The allotments of a queue's lanes. Each queue picks them.
pub trait Allotments {
    ghost use Rattle.std.specs.Prelude.{List, ℕ};

    ghost allotments: { List ℕ };
}

impl Allotments for Brand {
    ghost use Rattle.std.specs.Prelude.{[]};

    ghost allotments = { [] };
}

/// The maker takes the allotments, before it makes a lane. Nothing is split from it.
pub struct SetAllotments<N> {
    of: PhantomData<N>,
}

impl<N: Allotments> Split<View> for SetAllotments<N> {
    ghost use Rattle.shared_queue.specs.Rule.{with_allotments, spent};

    ghost left = { with_allotments N.allotments };

    ghost right = { λ v. spent };
}

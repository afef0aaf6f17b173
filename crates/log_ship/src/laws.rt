ghost use Rattle.std.specs.Prelude.{◌≡◌, ◌≤◌, ◌+◌, ◌-◌, ◌*◌, ◌/◌, ℕ, List, Option};
ghost use Rattle.audit_reader.specs.Plain.{Fits, IsPlain};
ghost use Rattle.event_text.specs.Line.{line_text};
ghost use Rattle.front_base.specs.Line.{Line};
ghost use Rattle.log_ship.specs.Chains.{Side, Posted};
ghost use Rattle.log_ship.specs.Paces.{Told, Begins, rules_of};
ghost use Rattle.log_ship.specs.Runs.{AreDone};
ghost use Rattle.log_ship.specs.Shipped as shipped;
ghost use Rattle.log_ship.specs.Texts.{IsShippable};
ghost use Rattle.log_ship.specs.declared.pace.ShipPace.{ShipPace};
ghost use Rattle.log_ship.specs.declared.tally.Tally.{Tally};
ghost use Rattle.retry_throttle.specs.Shippings.{all_taken};
ghost use Rattle.retry_throttle.specs.Tokens.{count_between};
ghost use Rattle.retry_throttle.specs.declared.bucket.TheConstants.{TOKEN};
ghost use Rattle.retry_throttle.specs.declared.sent.Sent.{Sent};
ghost use Rattle.stage_event.specs.declared.event.Event.{Event};

use retry_throttle::few_posts_between;

/// The line of each plain audit event can be shipped, however deep its objects nest.
pub fn event_lines_are_shippable()
    ensures { (e : Event) → Fits e → IsPlain e → IsShippable (line_text e) }
{}

/// From one moment to another, these among them, a run posts at most as often as its burst says, and as its rate allows in between, rounded
/// down.
pub fn few_posts_between_moments()
    ensures { (pace : ShipPace) (old : Told) (start stop : Side) (batches : List (List Line)) (ends : List Sent) (a b : ℕ)
        → Begins pace old start → (posted : Posted (rules_of pace) start batches ends stop)
        → count_between a b (all_taken posted.outcomes) ≤ pace.burst + pace.rate * (b - a) / TOKEN }
{
    few_posts_between();
}

/// Each line that was read from the first one on is counted as posted or as lost, and none as both.
pub fn each_line_is_counted()
    ensures { (setup : shipped.Setup) (p q : Side) (left0 left : Option (List ℕ)) (first lines : ℕ) (rest : List ℕ) (tally : Tally)
        → shipped.Ships setup p left0 left first lines rest tally q → tally.posted + tally.lost ≡ lines }
{}

/// Where no line is counted as lost, the last post of each batch is done.
pub fn none_lost_is_all_posted()
    ensures { (setup : shipped.Setup) (p q : Side) (left0 left : Option (List ℕ)) (first lines : ℕ) (rest : List ℕ) (tally : Tally)
        → (ships : shipped.Ships setup p left0 left first lines rest tally q) → tally.lost ≡ 0 → AreDone ships.ends }
{}

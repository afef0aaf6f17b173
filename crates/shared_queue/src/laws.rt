ghost use Rattle.std.specs.Prelude.{◌≡◌, ℕ, List, [], Option, All, get_or};
ghost use Rattle.front_base.specs.Line as base;
ghost use Rattle.truncate_backend.specs.Outlets.{OutletTells, Popped};
ghost use Rattle.shared_queue.specs.Bays.{of_bay};
ghost use Rattle.shared_queue.specs.Ends.{EndParts, TellsParts};
ghost use Rattle.shared_queue.specs.Lanes.{LaneParts};
ghost use Rattle.shared_queue.specs.Queues.{KeepsParts, OneHome};
ghost use Rattle.shared_queue.specs.declared.lane.QueueLane.{QueueLane};
ghost use Rattle.shared_queue.specs.declared.queue_end.QueueEnd.{QueueEnd};

use std::sync::Wait;

/// What holds of every lane, whatever was offered to it and by whatever code.
pub fn lanes_keep_their_parts<R: Wait + Copy + Drop>()
    ensures { (lane : QueueLane R) → LaneParts lane }
{}

/// What holds of every end of a queue, however many lines were popped from it and by whatever code.
pub fn ends_keep_their_parts<R: Wait + Copy + Drop>()
    ensures { (end : QueueEnd R) → KeepsParts end }
{}

/// What a drainer that is generic in its outlet has done to an end. Each pop keeps the account of the bays' accepted lines,
/// and once nothing is left, each bay's accepted lines are its lines among those that were taken, in order and each once.
pub fn pops_keep_the_parts()
    ensures pop { (accepted : List (List base.Line)) (capacity : ℕ) (m n : OutletTells) (line : Option base.Line)
        → TellsParts accepted capacity m → Popped m line n → TellsParts accepted capacity n }
    ensures drained { (accepted : List (List base.Line)) (taken : List base.Line) (left : List (List base.Line)) (capacity : ℕ)
        → EndParts accepted taken left capacity → All (λ l. l ≡ []) left
        → (bay : ℕ) → get_or accepted bay [] ≡ of_bay bay taken }
{}

/// A home says of which queue something is a part, with the queue's capacity and the allotments of its lanes.
pub fn homes_name_their_queue<R: Wait + Copy + Drop>()
    ensures { OneHome R }
{}

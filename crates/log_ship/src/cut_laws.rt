ghost use Rattle.std.specs.Prelude.{◌≡◌, ◌<◌, ◌+◌, ◌++◌, ◌∷◌, [], true, false, ℕ, List, length};
ghost use Rattle.front_base.specs.Line.{Line};
ghost use Rattle.batch_backend.specs.declared.limits.Limits.{Limits};
ghost use Rattle.log_ship.specs.Cuts.{AreBatches, AreGathered, could_take, lines_from};

/// Lines that come one after another: each joins those that wait where they could take it, and else begins the next batch. At the end
/// those that wait are the last batch.
pub fn gathering_cuts()
    ensures none { (limits : Limits) → AreGathered limits [] [] [] }
    ensures joins { (limits : Limits) (lines : List Line) (batches : List (List Line)) (pending : List Line) (x : Line)
        → 0 < limits.lines → AreGathered limits lines batches pending → could_take limits pending (length x.bytes) ≡ true
        → AreGathered limits (lines ++ x ∷ []) batches (pending ++ x ∷ []) }
    ensures begins { (limits : Limits) (lines : List Line) (batches : List (List Line)) (pending : List Line) (x : Line)
        → AreGathered limits lines batches pending → could_take limits pending (length x.bytes) ≡ false
        → AreGathered limits (lines ++ x ∷ []) (batches ++ pending ∷ []) (x ∷ []) }
    ensures ends { (limits : Limits) (lines : List Line) (batches : List (List Line))
        → AreGathered limits lines batches [] → AreBatches limits lines batches }
    ensures ends_with { (limits : Limits) (lines : List Line) (batches : List (List Line)) (x : Line) (xs : List Line)
        → AreGathered limits lines batches (x ∷ xs) → AreBatches limits lines (batches ++ (x ∷ xs) ∷ []) }
    ensures numbers { (n : ℕ) (texts : List (List ℕ)) (text : List ℕ)
        → lines_from n (texts ++ text ∷ []) ≡ lines_from n texts ++ record { bay = 0; number = n + length texts; bytes = text } ∷ [] }
{}

/// Lines have one list of batches.
pub fn one_list_of_batches()
    ensures { (limits : Limits) (lines : List Line) (batches others : List (List Line))
        → AreBatches limits lines batches → AreBatches limits lines others → batches ≡ others }
{}

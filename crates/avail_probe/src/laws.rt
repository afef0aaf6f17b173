ghost use Rattle.std.specs.Prelude.{◌≡◌, ◌≤◌, ◌++◌, ◌∷◌, [], ℕ, Bool, List, Option, Ok, codes};
ghost use Rattle.apiservice_rows.specs.Object.{available_of};
ghost use Rattle.json_patch.specs.Merge.{merged};
ghost use Rattle.serde_json.specs.Data.{Data, Items};
ghost use Rattle.serde_json.specs.Find.{get};
ghost use Rattle.avail_probe.specs.Status as status;
ghost use Rattle.avail_probe.specs.Watching as spec;
ghost use Rattle.avail_probe.specs.Watching.{Watched};
ghost use Rattle.avail_probe.specs.declared.watcher.TheConstants.{MOST_PROBES};

use json_patch::each_member;

/// What is kept of a row's probes says as much as all of them: the wish by it is the wish by all, for every threshold that there can
/// be, and what is kept after a probe more is what is kept of all.
pub fn earlier_probes_decide_nothing()
    ensures wish { (threshold : ℕ) (w : Watched) → threshold ≤ MOST_PROBES
        → spec.wish threshold (spec.kept w) ≡ spec.wish threshold w }
    ensures probe { (good : Bool) (w all : Watched) → w ≡ spec.kept all
        → spec.probed good w ≡ spec.kept (record { told = all.told; refused = all.refused; probes = all.probes ++ good ∷ [] }) }
{}

/// What a door's object becomes by a patch, whatever it was and whatever is known of it: its members but `status` stay, and it is available,
/// or not, as the patch says.
pub fn patches_change_the_status_alone()
    ensures others { (target : Data) (conditions : Items) (name : List ℕ) → (name ≡ codes "status" → ⊥)
        → get name (merged target (status.patch_of conditions)) ≡ get name target }
    ensures says { (target : Data) (known : Items) (report : status.Report) (place : Option ℕ)
        → available_of place (merged target (status.patch_of (status.with_others (status.condition_of report) known))) ≡ Ok report.up }
{
    each_member();
}

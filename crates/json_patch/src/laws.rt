ghost use Rattle.std.specs.Prelude.{◌≡◌, ◌≤◌, ℕ, max, List};
ghost use Rattle.serde_json.specs.Data.{Data, object, Members, no_members, depth};
ghost use Rattle.serde_json.specs.Find.{get, get_member};
ghost use Rattle.json_patch.specs.Merge.{merged};
ghost use Rattle.json_patch.specs.Order.{Ascend, IsOrdered};
ghost use Rattle.json_patch.specs.Patched.{patched};

/// What a patch that is an object makes of the member of each name, whether the target has one or not. An empty patch
/// leaves an object as it is.
pub fn each_member()
    ensures found { (target : Data) (changes : Members) (name : List ℕ) → Ascend changes
        → get name (merged target (object changes)) ≡ patched (get name target) (get_member name changes) }
    ensures empty { (members : Members) → merged (object members) (object no_members) ≡ object members }
{}

/// A patch that is applied twice does what it does once.
pub fn twice_is_once()
    ensures { (target patch : Data) → IsOrdered target → IsOrdered patch
        → merged (merged target patch) patch ≡ merged target patch }
{}

/// What is merged nests no deeper than the target and the patch do. As `json_value` reads neither deeper than 127, its text
/// is read again.
pub fn no_deeper()
    ensures { (target patch : Data) → depth (merged target patch) ≤ max (depth target) (depth patch) }
{}

ghost use Rattle.std.specs.Prelude.{◌≡◌, ℕ, List, Some};
ghost use Rattle.apiservice_rows.specs.Row.{Row};
ghost use Rattle.service_patches.specs.Patches.{patched_row};

/// The row after a patch has the name that the patch was sent for: no patch gives an APIService another one.
pub fn a_patch_keeps_the_name()
    ensures { (name object patch : List ℕ) (row : Row) → patched_row name object patch ≡ Some row → row.name ≡ name }
{}

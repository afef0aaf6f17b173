// The slashes at the ends of a path.
ghost use Rattle.std.specs.Prelude.{◌≡◌, ◌∷◌, ◌++◌, [], ℕ, List, IfSome, IfNone};
ghost use Rattle.front_base.specs.Ends as spec;

/// What follows a prefix of a text, or none where the text doesn't begin with it.
pub fn without_prefix<'t>(text: &'t str, prefix: &str) -> Option<&'t str>
    ensures some { IfSome result (λ rest. text.now ≡ prefix.now ++ rest.now) }
    ensures none { IfNone result ((rest : List ℕ) → text.now ≡ prefix.now ++ rest → ⊥) }
{
    text.strip_prefix(prefix)
}

fn without_suffix<'t>(text: &'t str, suffix: &str) -> Option<&'t str>
    ensures some { IfSome result (λ rest. text.now ≡ rest.now ++ suffix.now) }
    ensures none { IfNone result ((rest : List ℕ) → text.now ≡ rest ++ suffix.now → ⊥) }
{
    text.strip_suffix(suffix)
}

fn without_start<'p>(path: &'p str) -> &'p str
    ensures { result.now ≡ spec.without_start path.now }
{
    let mut text = path;
    while let Some(rest) = without_prefix(text, "/") {
        text = rest;
    }
    text
}

fn without_end<'p>(path: &'p str) -> &'p str
    ensures { result.now ≡ spec.without_end path.now }
{
    let mut text = path;
    while let Some(rest) = without_suffix(text, "/") {
        text = rest;
    }
    text
}

/// A path without the slashes at its ends, of which there may be several.
pub fn trim_slashes<'p>(path: &'p str) -> &'p str
    ensures { result.now ≡ spec.trimmed path.now }
{
    without_end(without_start(path))
}

/// A slash more at either end of a path is trimmed off it.
pub fn slashes_are_trimmed()
    ensures start { (path : List ℕ) → spec.trimmed (47 ∷ path) ≡ spec.trimmed path }
    ensures end { (path : List ℕ) → spec.trimmed (path ++ 47 ∷ []) ≡ spec.trimmed path }
{}

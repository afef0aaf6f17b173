// Texts in two parts.
ghost use Rattle.std.specs.Prelude.{◌≡◌, ◌<◌, option_map};
ghost use Rattle.front_base.specs.Cut as spec;

/// What stands before and after the first `at` in a text, or none where it has none. `at` is an ASCII character.
pub fn cut_at(text: &str, at: char) -> Option<(&str, &str)>
    requires { at < 128 }
    ensures { option_map (λ parts. (parts.0.now, parts.1.now)) result ≡ spec.cut_at at text.now }
{
    text.split_once(at)
}

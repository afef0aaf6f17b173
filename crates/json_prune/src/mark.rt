ghost use Rattle.std.specs.Prelude.{◌≡◌};
ghost use Rattle.json_prune.specs.Mark as spec;

// What a byte between tokens is, for how far a value goes.
#[derive(Clone, Copy)]
pub enum Mark {
    Quote,
    Opens,
    Closes,
    Comma,
    Other,
}

pub fn mark_of(byte: u8) -> Mark
    ensures { result ≡ spec.mark_of byte }
{
    match byte {
        b'"' => Mark::Quote,
        b'[' | b'{' => Mark::Opens,
        b']' | b'}' => Mark::Closes,
        b',' => Mark::Comma,
        _ => Mark::Other,
    }
}

// What the bytes of a link say.
ghost use Rattle.std.specs.Prelude.{◌≡◌, ℕ, List, Bool};
ghost use Rattle.forward_link.specs.Says.{Got, Said};

use http_head::one_reply;

/// All bytes of a link say one thing at most: so a reply, its refusal and its end are answered exactly where the bytes say
/// them.
pub fn links_say_one_thing()
    ensures { (is_head streamed : Bool) (held : List ℕ) (a b : Said)
        → Got is_head streamed held a → Got is_head streamed held b → a ≡ b }
{
    one_reply();
}

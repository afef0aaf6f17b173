// The text of an EventList of `audit.k8s.io/v1`, whose items are lines.
ghost use Rattle.std.specs.Prelude.{◌≡◌, ◌<◌, ◌≤◌, ◌+◌, ◌-◌, ◌^◌, codes, length};
ghost use Rattle.truncate_backend.specs.Tries.{bytes_of};
ghost use Rattle.webhook_sink.specs.Lists as spec;

use front_base::Line;

/// What stands before the first line.
#[tactic(auto, unfolding(crate::specs::Lists::list_head))]
pub fn list_head() -> &'static [u8]
    ensures text { result.now ≡ spec.list_head }
    ensures short { length result.now ≤ 80 }
{
    br#"{"kind":"EventList","apiVersion":"audit.k8s.io/v1","metadata":{},"items":["#
}

/// What stands after the last line.
#[tactic(auto, unfolding(crate::specs::Lists::list_tail))]
pub fn list_tail() -> &'static [u8]
    ensures text { result.now ≡ spec.list_tail }
    ensures short { length result.now ≤ 80 }
{
    b"]}"
}

// What stands before the line of that number: a comma, but before the first.
pub fn separator(index: usize) -> &'static [u8]
    ensures text { result.now ≡ spec.separator index }
    ensures short { length result.now ≤ 1 }
{
    if index == 0 { b"" } else { b"," }
}

/// How many bytes the list has: 76, those of the lines, and one for each comma.
pub fn list_length(lines: &[Line]) -> u64
    requires { length lines.now < 2 ^ 32 }
    ensures length { result ≡ length (spec.list_text lines.now) }
    ensures sum { result ≡ 76 + bytes_of lines.now + (length lines.now - 1) }
    ensures bounded { result < 2 ^ 55 }
{
    let mut size: u64 = 76;
    for line in lines {
        size += line.bytes.as_slice().len() as u64;
    }
    size + (lines.len().saturating_sub(1)) as u64
}

// When a batch is complete.
ghost use Rattle.std.specs.Prelude.{◌≡◌, nat_lt};
ghost use Rattle.truncate_backend.specs.Tries.{bytes_of};
ghost use Rattle.model_worlds.specs.Steps as spec;

use audit_core::SinkMode;
use front_base::Line;

pub fn is_batch(mode: SinkMode) -> bool
    ensures { result ≡ spec.is_batch mode }
{
    match mode {
        SinkMode::Batch => true,
        SinkMode::Off | SinkMode::Blocking | SinkMode::Strict => false,
    }
}

fn exceed(lines: &[Line], bytes: u64) -> bool
    ensures { result ≡ nat_lt bytes (bytes_of lines.now) }
{
    let mut left = bytes;
    for line in lines {
        let length = line.bytes.as_slice().len() as u64;
        if left < length {
            return true;
        }
        left -= length;
    }
    false
}

// Two lines or more, with more bytes than a batch may have.
pub fn is_over(lines: &[Line], bytes: u64) -> bool
    ensures { result ≡ spec.is_over bytes lines.now }
{
    lines.len() > 1 && exceed(lines, bytes)
}

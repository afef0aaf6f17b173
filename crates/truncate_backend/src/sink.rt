ghost use Rattle.std.specs.Prelude.{◌<◌, ◌^◌, length};
ghost use Rattle.truncate_backend.specs.Tries.{Tried, SinkTells};

use crate::tries::SinkFault;
use front_base::Line;

/// Where lines are written, many at a time.
pub trait BatchSink {
    /// Its tries, how often its port failed, how often its peer refused, the text of a try, and what its port was given.
    ghost tells: { Self → SinkTells };

    /// Writes these lines, in one try: all of their text, unless its port failed.
    fn put(&mut self, lines: &[Line]) -> Result<(), SinkFault>
        requires { (0 < length lines.now) × (length lines.now < 2 ^ 32) }
        ensures { Tried (tells self.old) lines.now result (tells self.new) };
}

ghost use Rattle.command_ends.specs.Ports.{port};
ghost use Rattle.rehearse_runs.specs.Told as spec;

use command_ends::Status;
use front_ports::{ByteSink, write_all};

/// Writes a text. With `Done` all of it was written, and with `WriteFault` a prefix.
pub fn tell<O: ByteSink>(out: &mut O, text: &[u8]) -> Status
    ensures { spec.Tells text.now (port (O.written out.old) (O.write_faults out.old) (O.written out.new) (O.write_faults out.new)) result }
{
    match write_all(out, text) {
        Ok(()) => Status::Done,
        Err(_) => Status::WriteFault,
    }
}

ghost use Rattle.std.specs.Prelude.{◌≡◌, OnOk, OnErr};
ghost use Rattle.std.specs.Io.KnownBytes.{Appends};
ghost use Rattle.front_ports.specs.Cause.{HasCause};
ghost use Rattle.front_ports.specs.Written.{AppendsFront};

use front_ports::{ByteSink, PortFault, write_all};

/// Writes a reply, all of it. On a fault, a prefix of it was written.
pub fn put_reply<C: ByteSink>(conn: &mut C, bytes: &[u8]) -> Result<(), PortFault>
    ensures ok { OnOk result (Appends (C.written conn.old) (C.written conn.new) bytes.now) }
    ensures err { OnErr result (AppendsFront (C.written conn.old) (C.written conn.new) bytes.now) }
    ensures cause { HasCause (C.write_faults conn.old) (C.write_faults conn.new) result }
    ensures aside { C.inward conn.new ≡ C.inward conn.old }
{
    write_all(conn, bytes)
}

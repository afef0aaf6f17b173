// The room that reads go into.
ghost use Rattle.std.specs.Prelude.{◌≡◌, ◌<◌, ◌≤◌, ◌-◌, IfOk, IfErr, OnOk, OnErr, take, drop, vec_len};
ghost use Rattle.front_ports.specs.Cause.{Rose};
ghost use Rattle.wire_intake.specs.Seen as spec;

use crate::intake::ReadStop;
use front_base::NoMemory;
use front_ports::Source;

// Moves the bytes from `at` up to `end` to the front.
pub fn move_first(room: &mut Vec<u8>, at: usize, end: usize)
    requires { (at ≤ end) × (end ≤ vec_len room.old) }
    ensures held { take (end - at) room.new.items ≡ drop at (take end room.old.items) }
    ensures len { vec_len room.new ≡ vec_len room.old }
{
    if 0 < at {
        room.copy_within(at..end, 0);
    }
}

// Makes the room so long. What stands in it stays, and where memory is short all of it does.
pub fn lengthen(room: &mut Vec<u8>, len: usize) -> Result<(), NoMemory>
    requires { vec_len room.old ≤ len }
    ensures held { take (vec_len room.old) room.new.items ≡ room.old.items }
    ensures ok { OnOk result (vec_len room.new ≡ len) }
    ensures err { OnErr result (vec_len room.new ≡ vec_len room.old) }
{
    room.resize(len, 0)?;
    Ok(())
}

// Reads once, to after the first `held` bytes, and answers where what was read ends.
pub fn read_after<C: Source>(
    conn: &mut C,
    room: &mut Vec<u8>,
    held: usize,
) -> Result<usize, ReadStop>
    requires { held < vec_len room.old }
    ensures ok { IfOk result (λ end.
        spec.Refilled (C.left conn.old) (C.left conn.new) (take held room.old.items) (take end room.new.items)) }
    ensures within { IfOk result (λ end. end ≤ vec_len room.new) }
    ensures err { IfErr result (λ stop.
        spec.NotRead (C.left conn.old) (C.left conn.new) (take held room.old.items) (take held room.new.items)
        (Rose (C.read_faults conn.old) (C.read_faults conn.new)) stop) }
    ensures later { C.read_faults conn.old ≤ C.read_faults conn.new }
    ensures calm { OnOk result (C.read_faults conn.new ≡ C.read_faults conn.old) }
    ensures told { IfErr result (spec.KeepsCount (C.read_faults conn.old) (C.read_faults conn.new)) }
    ensures aside { C.outward conn.new ≡ C.outward conn.old }
    ensures len { vec_len room.new ≡ vec_len room.old }
{
    let Ok(count) = conn.read(&mut room[held..]) else {
        return Err(ReadStop::ReadFault);
    };
    if count == 0 {
        return Err(ReadStop::AtEnd);
    }
    Ok(held + count)
}

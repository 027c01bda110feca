// Bytes put into a room of units, and units into a room of bytes.
ghost use Rattle.std.specs.Prelude.{map, ◌+◌, ◌≤◌, ◌^◌, length};
ghost use Rattle.writing.specs.Put.{Put};
ghost use Rattle.requests.specs.Bytes.{low_byte};

use writing::put_unit;

// Puts bytes at `at`, each as a unit.
pub fn put_bytes(room: &mut [u16], at: usize, bytes: &[u8]) -> usize
    requires { at + length bytes.now ≤ 2 ^ 63 }
    ensures { Put room.old at bytes.now result room.new }
{
    let mut o = at;
    for byte in bytes {
        o = put_unit(room, o, u16::from(*byte));
    }
    o
}

// Puts units into the front of a room that takes them, each as its low byte.
pub fn narrow(units: &[u16], room: &mut [u8]) -> usize
    requires { length units.now ≤ length room.old }
    ensures { Put room.old 0 (map low_byte units.now) result room.new }
{
    for (i, unit) in units.iter().enumerate() {
        room[i] = (*unit % 256) as u8;
    }
    units.len()
}

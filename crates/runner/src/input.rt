// The input: one read at a time into the room behind what is kept, and what is left moved to the front.
ghost use Rattle.std.specs.Prelude.{◌≡◌, ◌-◌, ◌≤◌, length, take, drop};
ghost use Rattle.std.specs.Io.KnownBytes.{Consumes};

use std::io::Read;

// One read into the room: how many bytes it gave. A read that fails counts as the end.
#[tactic(auto, using(crate::proofs::Taken::consumes_read))]
pub fn fill<R: Read>(reader: &mut R, room: &mut [u8]) -> usize
    ensures bound { result ≤ length room.old }
    ensures bytes { Consumes (R.remaining reader.old) (R.remaining reader.new) (take result room.new) }
{
    reader.read(room).unwrap_or(0)
}

// Moves the bytes from `from` on to the front, and answers how many they are.
pub fn shift(bytes: &mut [u8], from: usize) -> usize
    requires { from ≤ length bytes.old }
    ensures { (result ≡ length bytes.old - from) × (take result bytes.new ≡ drop from bytes.old) }
{
    bytes.copy_within(from.., 0);
    bytes.len() - from
}

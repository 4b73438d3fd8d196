// The marks: one byte to a block, at index block - 1. All else reads and writes them through these functions.
ghost use Rattle.std.specs.Prelude.{◌≡◌, true, false, ℕ, ◌+◌, ◌≤◌, ◌<◌, length, fold};
ghost use Rattle.std.specs.Int.Bits.{bit_or};
ghost use Rattle.search.specs.Marks.{SameLoan, is_marked, mark, cleared};

// how many blocks are looked at together
pub const RUN: usize = 64;

// The bytes that a search is lent. That they have room for all blocks stands in the clauses of `Query`'s methods and not here: a ghost
// field beside a `&mut` is not covered by the check.
#[derive(Drop)]
pub struct Marks<'a> {
    pub bytes: &'a mut [u8],
}

impl<'a> Marks<'a> {
    // The bytes as marks, none of the blocks marked.
    pub fn none(bytes: &'a mut [u8], blocks: usize) -> Marks<'a>
        requires { blocks ≤ length bytes.old }
        ensures loan { SameLoan result.bytes bytes.entry }
        ensures cleared { result.bytes.now ≡ cleared blocks bytes.old }
    {
        bytes[..blocks].fill(0);
        Marks { bytes }
    }

    // Is the block marked?
    pub fn is_marked(&self, block: usize) -> bool
        requires { (1 ≤ block) × (block ≤ length self.now.bytes.now) }
        ensures { result ≡ is_marked self.now.bytes.now block }
    {
        self.bytes[block - 1] == 1
    }

    // Marks the block.
    pub fn mark(&mut self, block: usize)
        requires { (1 ≤ block) × (block ≤ length self.old.bytes.now) }
        ensures loan { SameLoan self.new.bytes self.old.bytes }
        ensures marked { self.new.bytes.now ≡ mark self.old.bytes.now block }
    {
        self.bytes[block - 1] = 1;
    }

    // Is none of the 64 blocks after the first `from` marked?
    pub fn none_marked(&self, from: usize) -> bool
        requires { (from + 64 ≤ length self.now.bytes.now) × (from ≤ 65535) }
        ensures { result ≡ true → (i : ℕ) → i < 64 → is_marked self.now.bytes.now (from + i + 1) ≡ false }
    {
        all_of(&self.bytes[from..from + RUN]) == 0
    }
}

// The bits of all bytes, together.
fn all_of(bytes: &[u8]) -> u8
    ensures { result ≡ fold bit_or 0 bytes.now }
{
    bytes.iter().fold(0, |all, byte| all | *byte)
}

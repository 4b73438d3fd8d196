// A query as the walk holds it: one word by itself, which stays in a register, or the words that are lent. The walk is written once, over
// this, and compiled for both.
ghost use Rattle.std.specs.Prelude.{◌≡◌, ◌*◌, ◌^◌, ◌≤◌, ◌<◌, eqb, length};
ghost use Rattle.model.specs.Limits.{word_bits};
ghost use Rattle.model.specs.Wide.{word_count};
ghost use Rattle.model.specs.Signature.{coversb};
ghost use Rattle.model.specs.Tables.{width_of, signature_of};
ghost use Rattle.tables.specs.Rows.{numbers};
ghost use Rattle.search.specs.Search.{side_at};

use signature::{Positions, Wanted};
use tables::Rows;

// What the walk asks of it.
pub trait Sought: Positions {
    // Does it go right only at a node that tests this position? It is not asked whether that is one: whatever it is, some bit is read.
    fn goes_right(self, width: u32, position: u32) -> bool
        requires { (1 ≤ width) × (Self.places self ≡ word_bits * word_count width) }
        ensures { result ≡ eqb (side_at width (Self.number self) position) 1 };

    // Does the block's signature cover it?
    fn is_covered(self, rows: &Rows, block: usize) -> bool
        requires inside { (1 ≤ block) × (block ≤ length (numbers rows.now)) }
        requires fits { (Self.places self ≡ word_bits * word_count (width_of rows.now.links.now)) × (Self.number self < 2 ^ width_of rows.now.links.now) }
        ensures { result ≡ coversb (width_of rows.now.links.now) (signature_of (numbers rows.now) block) (Self.number self) };
}

impl Sought for u64 {
    fn goes_right(self, width: u32, position: u32) -> bool {
        (self >> (width.wrapping_sub(position) % u64::BITS)) & 1 == 1
    }

    fn is_covered(self, rows: &Rows, block: usize) -> bool {
        signature::word_covers(rows.signatures[block - 1], self)
    }
}

impl<'a> Sought for Wanted<'a> {
    fn goes_right(self, width: u32, position: u32) -> bool {
        let from_right = width.wrapping_sub(position);
        let passed = (from_right / u64::BITS) as usize;
        let word = self.words[(self.words.len() - 1).saturating_sub(passed)];
        (word >> (from_right % u64::BITS)) & 1 == 1
    }

    fn is_covered(self, rows: &Rows, block: usize) -> bool {
        self.is_covered_by(rows.signature_of(block))
    }
}

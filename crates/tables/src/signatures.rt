// The blocks' signatures, for what asks for one position of each: it is written once, over this, and compiled for one word to a signature,
// which stands at its block's index, and for many.
ghost use Rattle.std.specs.Prelude.{◌≡◌, ℕ, List, ◌*◌, ◌≤◌, eqb, length};
ghost use Rattle.model.specs.Limits.{word_bits};
ghost use Rattle.model.specs.Signature.{bit_at};
ghost use Rattle.model.specs.Tables.{signature_of};
ghost use Rattle.tables.specs.Rows.{numbers};

use crate::rows::Rows;
use signature::{Position, Positions};

// Their numbers, and for how many positions each has room.
pub trait Signatures: Copy {
    ghost numbers: { Self → List ℕ };

    ghost places: { Self → ℕ };

    // Whether the block's signature has the position set.
    fn is_set(self, block: usize, position: Position) -> bool
        requires block_inside { (1 ≤ block) × (block ≤ length (numbers self)) }
        requires room { position.width ≤ places self }
        ensures { result ≡ eqb (bit_at position.width (signature_of (numbers self) block) position.number) 1 };
}

impl<'a> Signatures for Rows<'a> {
    ghost numbers = { λ rows. numbers rows };

    ghost places = { λ rows. word_bits * rows.words };

    fn is_set(self, block: usize, position: Position) -> bool {
        self.signature_of(block).is_set(position)
    }
}

// Rows with one word to a signature. (An index that is multiplied by 1 takes half as long again in a loop that only counts.)
#[derive(Clone, Copy)]
pub struct OneWord<'a> {
    pub rows: Rows<'a>,
    pub ghost one: { rows.words ≡ 1 },
}

impl<'a> Signatures for OneWord<'a> {
    ghost numbers = { λ one. numbers one.rows };

    ghost places = { λ one. word_bits };

    fn is_set(self, block: usize, position: Position) -> bool {
        self.rows.signatures[block - 1].is_set(position)
    }
}

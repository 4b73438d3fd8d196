// A signature as code has it: one word by itself, or words as they are lent, the high one first.
ghost use Rattle.std.specs.Prelude.{◌≡◌, ℕ, ◌*◌, ◌≤◌, eqb, length};
ghost use Rattle.model.specs.Limits.{word_bits};
ghost use Rattle.model.specs.Wide.{number_in};
ghost use Rattle.model.specs.Signature.{bit_at};

use crate::Position;

// Its number, and for how many positions it has room. What only asks which positions are set is written once, over this: it is compiled for
// one word, which stays in a register, and for many.
pub trait Positions: Copy {
    ghost number: { Self → ℕ };

    ghost places: { Self → ℕ };

    // Whether the position is set.
    fn is_set(self, position: Position) -> bool
        requires { position.width ≤ places self }
        ensures { result ≡ eqb (bit_at position.width (number self) position.number) 1 };
}

impl Positions for u64 {
    ghost number = { λ word. word };

    ghost places = { λ word. word_bits };

    fn is_set(self, position: Position) -> bool {
        (self >> (position.width - position.number)) & 1 == 1
    }
}

impl<'a> Positions for &'a [u64] {
    ghost number = { λ words. number_in words.now };

    ghost places = { λ words. word_bits * length words.now };

    fn is_set(self, position: Position) -> bool {
        (self[position.word_in(self.len())] >> position.shift()) & 1 == 1
    }
}

// A position of signatures.
ghost use Rattle.std.specs.Prelude.{◌≡◌, ◌-◌, ◌*◌, ◌%◌, ◌^◌, ◌≤◌, ◌<◌, length, set, IfSome, IfNone};
ghost use Rattle.std.specs.Int.Bits.{bit_or};
ghost use Rattle.model.specs.Limits.{widest, word_bits};
ghost use Rattle.model.specs.Wide.{number_in, word_of};

// The position's number, 1 to the width, counted from the left, and the width of the signatures.
#[derive(Clone, Copy)]
pub struct Position {
    pub width: u32,
    pub number: u32,
    pub ghost inside: { (1 ≤ number) × (number ≤ width) },
    pub ghost narrow: { width ≤ widest },
}

impl Position {
    // The position of this number, where the width has it.
    pub fn of(width: u32, number: u32) -> Option<Position>
        requires { width ≤ widest }
        ensures some { IfSome result (λ position. (position.width ≡ width) × (position.number ≡ number)) }
        ensures none { IfNone result ((1 ≤ number) × (number ≤ width) → ⊥) }
    {
        if !(1..=width).contains(&number) {
            return None;
        }
        Some(Position { width, number })
    }

    // The index of the word that has it, in a signature of so many words.
    pub(crate) fn word_in(self, words: usize) -> usize
        requires { self.width ≤ word_bits * words }
        ensures value { result ≡ word_of words (self.width - self.number) }
        ensures inside { result < words }
    {
        words - 1 - ((self.width - self.number) / u64::BITS) as usize
    }

    // How far it stands from the right in that word.
    pub(crate) fn shift(self) -> u32
        ensures value { result ≡ (self.width - self.number) % word_bits }
        ensures inside { result < word_bits }
    {
        (self.width - self.number) % u64::BITS
    }

    // Sets it. The result is the word that has it, as it was.
    pub fn set(self, signature: &mut [u64]) -> u64
        requires { self.width ≤ word_bits * length signature.old }
        ensures number { number_in signature.new ≡ bit_or (number_in signature.old) (2 ^ (self.width - self.number)) }
        ensures long { length signature.new ≡ length signature.old }
        ensures back { set signature.new (word_of (length signature.old) (self.width - self.number)) result ≡ signature.old }
    {
        let at = self.word_in(signature.len());
        let word = signature[at];
        signature[at] = word | (1 << self.shift());
        word
    }

    // Puts back the word that has it.
    pub fn put_back(self, signature: &mut [u64], word: u64)
        requires { self.width ≤ word_bits * length signature.old }
        ensures { signature.new ≡ set signature.old (word_of (length signature.old) (self.width - self.number)) word }
    {
        signature[self.word_in(signature.len())] = word;
    }
}

// A query of words, as signatures are compared with it.
ghost use Rattle.std.specs.Prelude.{◌≡◌, ℕ, ◌⊎◌, ◌*◌, ◌^◌, ◌≤◌, ◌<◌, length, get_or};
ghost use Rattle.model.specs.Limits.{word_bits};
ghost use Rattle.model.specs.Wide.{AreWords, number_in};
ghost use Rattle.model.specs.Signature.{coversb};

use crate::{Position, Positions};

// The words, and the part of them that says anything, `from` up to `to`: the others are 0, which every signature covers. A compare reads
// no more words of a signature than that part has; where a chain is long, a query of few positions is found up to twice as fast for it.
#[derive(Clone, Copy)]
pub struct Wanted<'a> {
    pub words: &'a [u64],
    from: usize,
    to: usize,
    ghost fits: { AreWords words.now },
    ghost inside: { (from ≤ to) × (to ≤ length words.now) },
    ghost outside: { (i : ℕ) → (i < from) ⊎ (to ≤ i) → get_or words.now i 0 ≡ 0 },
}

impl<'a> Wanted<'a> {
    // The query of these words.
    pub fn of(words: &'a [u64]) -> Wanted<'a>
        ensures { result.words ≡ words.entry }
    {
        let mut from = 0;
        let mut to = 0;
        for (i, word) in words.iter().enumerate() {
            if *word != 0 {
                if to == 0 {
                    from = i;
                }
                to = i + 1;
            }
        }
        Wanted { words, from, to }
    }

    // Whether every position set in it is set in the signature. The test stops at the first word that decides it, from the high end.
    pub fn is_covered_by(self, signature: &[u64]) -> bool
        requires { length signature.now ≡ length self.words.now }
        ensures { (F : ℕ) → number_in self.entry.words.now < 2 ^ F → result ≡ coversb F (number_in signature.now) (number_in self.entry.words.now) }
    {
        for i in self.from..self.to {
            if signature[i] & self.words[i] != self.words[i] {
                return false;
            }
        }
        true
    }
}

impl<'a> Positions for Wanted<'a> {
    ghost number = { λ query. number_in query.words.now };

    ghost places = { λ query. word_bits * length query.words.now };

    fn is_set(self, position: Position) -> bool {
        self.words.is_set(position)
    }
}

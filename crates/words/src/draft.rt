// A text's signature while it is made, in the form that suits the width.
ghost use Rattle.std.specs.Prelude.{◌≡◌, ℕ, ◌-◌, ◌^◌, ◌≤◌, eqb, get_or};
ghost use Rattle.std.specs.Int.Bits.{bit_or};
ghost use Rattle.model.specs.Limits.{widest, word_bits};
ghost use Rattle.model.specs.Wide.{number_in};
ghost use Rattle.model.specs.Signature.{bit_at};
ghost use Rattle.words.specs.Stamps.{stamped};

use signature::{MOST_WORDS, Position, Positions, WIDEST};

// What signs a text is written once, over this: it is compiled for one word of 64 bits, which stays in a register, and for as many as the
// widest width has.
pub trait Draft {
    // what the word that is being signed has set
    ghost own: { Self → ℕ };

    // what is set in the text's signature so far, that word's included
    ghost signed: { Self → ℕ };

    // for how many positions there is room
    ghost places: { ℕ };

    // A new word has set nothing.
    fn begin_word(&mut self)
        ensures own { own self.new ≡ 0 }
        ensures signed { signed self.new ≡ signed self.old };

    // Whether the word has set the position.
    fn has(&self, position: Position) -> bool
        requires { position.width ≤ places }
        ensures { result ≡ eqb (bit_at position.width (own self.now) position.number) 1 };

    // The word sets it.
    fn set(&mut self, position: Position)
        requires { position.width ≤ places }
        ensures own { own self.new ≡ bit_or (own self.old) (2 ^ (position.width - position.number)) }
        ensures signed { signed self.new ≡ bit_or (signed self.old) (2 ^ (position.width - position.number)) };
}

// What the word has set, and what the words before it have.
#[derive(Drop)]
pub struct OneWord {
    pub own: u64,
    pub before: u64,
}

impl Draft for OneWord {
    ghost own = { λ draft. draft.own };

    ghost signed = { λ draft. bit_or draft.before draft.own };

    ghost places = { word_bits };

    fn begin_word(&mut self) {
        self.before |= self.own;
        self.own = 0;
    }

    fn has(&self, position: Position) -> bool {
        self.own.is_set(position)
    }

    fn set(&mut self, position: Position) {
        self.own |= 1 << (position.width - position.number);
    }
}

// how many positions the widest width has
const MOST_PLACES: usize = WIDEST as usize;

// The text's signature, and for each position, by how far it stands from the right, which word set it last: so nothing is cleared between
// two words. The words are numbered from 1, and again from 1 where a byte has no further number.
#[derive(Drop)]
pub struct ManyWords {
    pub words: [u64; MOST_WORDS],
    set_by: [u8; MOST_PLACES],
    number: u8,
    ghost numbered: { (i : ℕ) → get_or set_by i 0 ≤ number },
}

impl ManyWords {
    // No word yet.
    pub fn none() -> ManyWords
        ensures { number_in result.words ≡ 0 }
    {
        ManyWords {
            words: [0; MOST_WORDS],
            set_by: [0; MOST_PLACES],
            number: 0,
        }
    }
}

impl Draft for ManyWords {
    ghost own = { λ draft. stamped draft.number draft.set_by };

    ghost signed = { λ draft. number_in draft.words };

    ghost places = { widest };

    fn begin_word(&mut self) {
        if self.number == u8::MAX {
            self.set_by = [0; MOST_PLACES];
            self.number = 0;
        }
        self.number += 1;
    }

    fn has(&self, position: Position) -> bool {
        self.set_by[(position.width - position.number) as usize] == self.number
    }

    fn set(&mut self, position: Position) {
        self.set_by[(position.width - position.number) as usize] = self.number;
        position.set(&mut self.words);
    }
}

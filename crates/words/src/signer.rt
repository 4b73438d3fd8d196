// The signature of a text: the OR over its words, each of which sets the positions of its triplets.
ghost use Rattle.std.specs.Prelude.{◌≡◌, List, [], ◌∷◌, ◌++◌, ℕ, ◌≤◌, ◌<◌, length};
ghost use Rattle.std.specs.Int.Bits.{bit_or};
ghost use Rattle.model.specs.Limits.{widest};
ghost use Rattle.model.specs.Wide.{word_count, number_in};
ghost use Rattle.model.specs.Words.{most_positions, triplet_position, word_signature, text_signature};
ghost use Rattle.words.specs.Pass.{Sets};

use crate::draft::{Draft, ManyWords, OneWord};
use crate::splitter::{end_of_run, is_separator};
use signature::{MOST_WORDS, Position};

// Copies the words. (By index, and not inlined: else the compiler makes of it a call of C's `memcpy`, which not everyone who links the library
// has.)
#[inline(never)]
#[tactic(auto, using(std::proofs::lemmas::List::take_more_set, std::proofs::lemmas::List::take_more))]
fn copy_words(from: &[u64], to: &mut [u64])
    requires { length to.old ≡ length from.now }
    ensures { to.new ≡ from.now }
{
    for i in 0..from.len() {
        to[i] = from[i];
    }
}

// How texts are signed: the width of a signature, and k, the number of different positions that a word sets at most.
#[derive(Clone, Copy)]
pub struct Signer {
    pub width: u32,
    pub k: u32,
    ghost some: { 1 ≤ width },
    ghost fits: { width ≤ widest },
    ghost any: { 1 ≤ k },
    ghost few: { k ≤ most_positions },
}

impl Signer {
    // The position that a triplet sets.
    fn position(self, a: u8, b: u8, c: u8) -> Position
        ensures { (result.number ≡ triplet_position self.width a b c) × (result.width ≡ self.width) }
    {
        let triplet = 961 * u32::from(a) + 31 * u32::from(b) + u32::from(c);
        Position {
            width: self.width,
            number: 1 + triplet % self.width,
        }
    }

    // Sets one more triplet's position, unless the word has set it already. The result is how many different ones the word has set, which
    // were fewer than k.
    fn add_position<D: Draft>(self, draft: &mut D, position: Position, count: u32) -> u32
        requires { (position.width ≤ D.places) × (count < self.k) }
        ensures own { (js : List ℕ) → Sets position.width self.k js (D.own draft.old) count → Sets position.width self.k (js ++ (position.number ∷ [])) (D.own draft.new) result }
        ensures signed { (before : ℕ) → D.signed draft.old ≡ bit_or before (D.own draft.old) → D.signed draft.new ≡ bit_or before (D.own draft.new) }
    {
        if draft.has(position) {
            return count;
        }
        draft.set(position);
        count + 1
    }

    // Signs a word: sets its first k different positions. A word under three bytes has no triplet.
    fn sign_word<D: Draft>(self, bytes: &[u8], draft: &mut D)
        requires { self.width ≤ D.places }
        ensures { D.signed draft.new ≡ bit_or (D.signed draft.old) (word_signature self.width self.k bytes.now) }
    {
        draft.begin_word();
        let mut count = 0;
        for &[a, b, c] in bytes.array_windows::<3>() {
            count = self.add_position(draft, self.position(a, b, c), count);
            if count == self.k {
                return;
            }
        }
    }

    // Signs a text, in a draft in which nothing is set: the OR over its words. A byte that is no separator begins one, which ends before the
    // next separator. A loop over `split` would not be covered by the check: the function has a type parameter.
    fn sign_text<D: Draft>(self, text: &[u8], draft: &mut D)
        requires { (self.width ≤ D.places) × (D.signed draft.old ≡ 0) }
        ensures { D.signed draft.new ≡ text_signature self.width self.k text.now }
    {
        let mut start = 0;
        while start < text.len() {
            if is_separator(&text[start]) {
                start += 1;
            } else {
                let end = end_of_run(text, start + 1);
                self.sign_word(&text[start..end], draft);
                start = end + 1;
            }
        }
    }

    // Fills as many words as the width has with the signature of a text. Where the draft has more, those in front are 0.
    pub fn sign(self, text: &[u8], signature: &mut [u64])
        requires { length signature.old ≡ word_count self.width }
        ensures { number_in signature.new ≡ text_signature self.width self.k text.now }
    {
        if signature.len() == 1 {
            let mut draft = OneWord { own: 0, before: 0 };
            self.sign_text(text, &mut draft);
            signature[0] = draft.before | draft.own;
        } else {
            let mut draft = ManyWords::none();
            self.sign_text(text, &mut draft);
            copy_words(&draft.words[MOST_WORDS - signature.len()..], signature);
        }
    }
}

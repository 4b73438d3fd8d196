// The bits of a signature, lent as W words, the high one first: does it fit a width, is a position of it set, does it cover a query, is it
// another's equal, where do two of them differ first. Every contract speaks of the number in the words, at every width.
#![tactic(auto)]

mod compare;
mod position;
mod positions;
mod wanted;

ghost use Rattle.std.specs.Prelude.{◌≡◌, ◌^◌, ◌≤◌, ◌<◌, ltb, length};
ghost use Rattle.model.specs.Limits.{widest};
ghost use Rattle.model.specs.Wide.{word_count, number_in};
ghost use Rattle.model.specs.Signature.{first_difference};
ghost use Rattle.model.specs.Questions.{width_fits};

pub use compare::{agrees, is_zero, same, word_covers};
pub use position::Position;
pub use positions::Positions;
pub use wanted::Wanted;

// the widest width
pub const WIDEST: u32 = 512;

// the words of a signature of that width
pub const MOST_WORDS: usize = 8;

// Whether signatures can have the width.
pub fn is_width(width: u32) -> bool
    ensures { result ≡ width_fits width }
{
    (1..=WIDEST).contains(&width)
}

// W, the words of a width: its 64th part, rounded up.
pub fn words_of(width: u32) -> usize
    requires { width ≤ widest }
    ensures value { result ≡ word_count width }
    ensures bound { result ≤ word_count widest }
{
    width.div_ceil(u64::BITS) as usize
}

// Whether the signature is below 2 ^ width: the high word's unused bits are 0.
pub fn fits(signature: &[u64], width: u32) -> bool
    requires { (1 ≤ width) × (length signature.now ≡ word_count width) }
    ensures { result ≡ ltb (number_in signature.now) (2 ^ width) }
{
    let used = width % u64::BITS;
    used == 0 || signature[0] >> used == 0
}

// The first position from the left at which a and b differ: the highest bit of the exclusive or of the first words that differ.
pub fn first_difference(a: &[u64], b: &[u64], width: u32) -> Position
    requires lengths { (1 ≤ width) × (width ≤ widest) × (length a.now ≡ word_count width) × (length b.now ≡ word_count width) }
    requires differ { (number_in a.now < 2 ^ width) × (number_in b.now < 2 ^ width) × (number_in a.now ≡ number_in b.now → ⊥) }
    ensures { (result.number ≡ first_difference width (number_in a.now) (number_in b.now)) × (result.width ≡ width) }
{
    let i = compare::first_word(a, b);
    let unused = u64::BITS * b.len() as u32 - width;
    let number = u64::BITS * i as u32 + (a[i] ^ b[i]).leading_zeros() - unused + 1;
    Position { width, number }
}

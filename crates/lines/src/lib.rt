// Lines: a report and the blocks that a search lists as text. Each function puts bytes from a place on and answers the next place; a
// caller sees to the room, so that no byte of a line is ever dropped.
// A struct of the text and the place is no plainer: each contract would have to say, too, that it still holds the same slice.
#![tactic(auto)]

ghost use Rattle.std.specs.Prelude.{[], ◌∷◌, ◌+◌, ◌*◌, ◌≤◌, ◌<◌, length};
ghost use Rattle.lines.specs.Text.{decimal, spaced, HasRoom, Puts};
ghost use Rattle.lines.specs.Line.{text_of};

use answers::Report;

// A slip's first byte, whatever it is; the report, in the numbers that a line tells; and the blocks that a search lists.
#[derive(Clone, Copy, Debug, PartialEq, Eq)]
pub struct Line<'a> {
    pub kind: u8,
    pub report: Report,
    pub blocks: &'a [u32],
}

// One byte.
fn push(text: &mut [u8], at: usize, byte: u8) -> usize
    requires { at < length text.old }
    ensures { Puts text.old at (byte ∷ []) result text.new }
{
    text[at] = byte;
    at + 1
}

// The digits of n.
// `Display` was tried in three forms: no clause of std says that `fmt` succeeds where the text has room, so the proof did not close. The kit's
// crate `itoa` proves, and takes a fifth longer.
#[tactic(auto, using(crate::proofs::Laws::len_one, crate::proofs::Laws::len_more))]
fn digits(text: &mut [u8], at: usize, n: u32) -> usize
    requires { at + length (decimal n) ≤ length text.old }
    ensures { Puts text.old at (decimal n) result text.new }
{
    if n < 10 {
        return push(text, at, b'0' + n as u8);
    }
    let next = digits(text, at, n / 10);
    push(text, next, b'0' + (n % 10) as u8)
}

// A space and the digits for each number, in at most 11 bytes.
#[tactic(auto, using(crate::proofs::Laws::decimal_few), unfolding(crate::specs::Text::spaced))]
fn numbers(text: &mut [u8], at: usize, list: &[u32]) -> usize
    requires { at + 11 * length list.now ≤ length text.old }
    ensures puts { Puts text.old at (spaced list.now) result text.new }
    ensures short { result ≤ at + 11 * length list.now }
{
    let mut next = at;
    for n in list {
        let begin = push(text, next, b' ');
        next = digits(text, begin, *n);
    }
    next
}

impl Line<'_> {
    // The line from place `at` on: the kind, the answer, the counts, the blocks. It takes at most 48 bytes and 11 for each block.
    #[tactic(auto, using(crate::proofs::Laws::decimal_byte))]
    pub fn put(&self, text: &mut [u8], at: usize) -> usize
        requires { HasRoom text.old at self.now.blocks.now }
        ensures puts { Puts text.old at (text_of self.now) result text.new }
        ensures short { result ≤ at + 48 + 11 * length self.now.blocks.now }
    {
        let Report { answer, counts } = self.report;
        let first = digits(text, at, u32::from(self.kind));
        let counted = numbers(
            text,
            first,
            &[answer, counts.found, counts.compares, counts.bits],
        );
        let listed = numbers(text, counted, self.blocks);
        push(text, listed, b'\n')
    }
}

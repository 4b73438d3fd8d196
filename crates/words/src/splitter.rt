// Where the words of a text stand: the longest runs of bytes other than the separators.
ghost use Rattle.std.specs.Prelude.{◌≡◌, ◌+◌, ◌≤◌, length, drop};
ghost use Rattle.std.specs.List.{position_or_len};
ghost use Rattle.model.specs.Words.{separator, word_at};
ghost use Rattle.words.specs.Parts.{part_of};

use std::ops::Range;

// Whether a text is split at the byte.
pub fn is_separator(byte: &u8) -> bool
    ensures { result ≡ separator byte.now }
{
    *byte == b' ' || *byte == b'\n'
}

// Where the bytes from one on that are no separators end: at the next separator, or at the text's end.
pub fn end_of_run(text: &[u8], start: usize) -> usize
    requires { start ≤ length text.now }
    ensures run { result ≡ start + position_or_len separator (drop start text.now) }
    ensures inside { (start ≤ result) × (result ≤ length text.now) }
{
    let rest = &text[start..];
    start + rest.iter().position(is_separator).unwrap_or(rest.len())
}

// The place of word n, counted from 1; the empty place at the text's end where there is none. It goes over the bytes, since the parts
// that `split` gives do not say where they stand, and adding up their sizes takes twice as long. That there is no word 0 is known before.
pub fn locate(text: &[u8], n: u32) -> Range<usize>
    requires { length text.now ≤ 4096 }
    ensures word { part_of result.start result.end ≡ word_at text.now n }
    ensures inside { (result.start ≤ result.end) × (result.end ≤ length text.now) }
{
    if n == 0 {
        return text.len()..text.len();
    }
    let mut seen = 0;
    let mut start = 0;
    for (i, byte) in text.iter().enumerate() {
        if is_separator(byte) {
            if start < i {
                seen += 1;
                if seen == n {
                    return start..i;
                }
            }
            start = i + 1;
        }
    }
    let end = text.len();
    if start < end && seen + 1 == n {
        start..end
    } else {
        end..end
    }
}

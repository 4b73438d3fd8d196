// Signs the worked examples and splits two texts, each result one line of text. tests/words/expected.py says what must come out.
#![tactic(auto)]

ghost use Rattle.std.specs.Prelude.{◌≤◌, ◌<◌};

use signature::{MOST_WORDS, Wanted};
use std::io;

// room for one word more than the widest signature has
const ROOM: usize = MOST_WORDS + 1;

// One signing: the text's length, the width, k, how many words are lent, the answer, and the words as they are left, which were 7 each.
fn show(rt: &impl Print, text: &[u8], width: u32, k: u32, lent: usize) -> io::Result<[u64; ROOM]>
    requires { lent ≤ ROOM }
{
    let mut room = [7; ROOM];
    let signature = &mut room[..lent];
    let answer = answers::answer(&words::sign(text, width, k, signature));
    let bytes = text.len();
    print!(rt; "bytes {bytes} width {width} k {k} lent {lent} answer {answer} signature")?;
    for word in signature.iter() {
        print!(rt; " {word}")?;
    }
    println!(rt;)?;
    Ok(room)
}

// One word: its number, the answer, its length and its bytes; then its place, as a caller from C is told it.
fn split(rt: &impl Print, text: &[u8], n: u32) -> io::Result<()> {
    let mut answer = 99;
    let word = words::word(text, n, &mut answer);
    let bytes = word.len();
    print!(rt; "word {n} answer {answer} bytes {bytes} [")?;
    rt.write_all(word)?;
    let outcome = words::word_place(text, n);
    let placed = answers::answer(&outcome);
    let place = outcome.unwrap_or(text.len()..text.len());
    let start = place.start;
    let size = place.len();
    println!(rt; "] answer {placed} start {start} size {size}")
}

// Document 01's triplets at width 12, and words of 1, 2 and 3 bytes.
fn triplets(rt: &impl Print) -> io::Result<()> {
    show(rt, b"pro", 12, 8, 1)?;
    show(rt, b"rof", 12, 8, 1)?;
    show(rt, b"prof", 12, 8, 1)?;
    show(rt, b"prof", 12, 1, 1)?;
    show(rt, b"of prof\nof", 12, 8, 1)?;
    show(rt, b"a", 12, 8, 1)?;
    show(rt, b"ab", 12, 8, 1)?;
    show(rt, b"abc", 12, 8, 1)?;
    Ok(())
}

// No word, positions that repeat, and the ends of width and k.
fn edges(rt: &impl Print) -> io::Result<()> {
    show(rt, b"", 12, 8, 1)?;
    show(rt, b"  \n \n", 12, 8, 1)?;
    show(rt, b"aaaaaaaa", 12, 8, 1)?;
    show(rt, b"aaaab", 12, 1, 1)?;
    show(rt, b"aaaab", 12, 2, 1)?;
    show(rt, b"the quick brown fox", 1, 8, 1)?;
    show(rt, b"the quick brown fox", 64, 8, 1)?;
    show(rt, b"the quick brown fox", 64, 1, 1)?;
    Ok(())
}

// Widths over 64: the ends of their words, and that the last one is filled.
fn wide(rt: &impl Print, long: &[u8]) -> io::Result<()> {
    show(rt, b"the quick brown fox", 65, 8, 2)?;
    show(rt, b"the quick brown fox", 70, 8, 2)?;
    show(rt, b"the quick brown fox", 127, 8, 2)?;
    show(rt, b"the quick brown fox", 128, 8, 2)?;
    show(rt, b"the quick brown fox", 129, 8, 3)?;
    show(rt, b"the quick brown fox", 511, 8, 8)?;
    show(rt, b"the quick brown fox", 512, 8, 8)?;
    show(rt, long, 70, 8, 2)?;
    show(rt, long, 512, 8, 8)?;
    Ok(())
}

// 256 words, more than a byte can number: the last is the first again and sets one position, as the first did. The others set none.
fn many(rt: &impl Print) -> io::Result<()> {
    let mut text = [b' '; 517];
    for i in 0..254 {
        text[5 + 2 * i] = b'x';
    }
    text[..4].copy_from_slice(b"abcd");
    text[513..].copy_from_slice(b"abcd");
    show(rt, &text, 512, 1, 8)?;
    Ok(())
}

// Each question's no, and that the first one decides. The long text has 4,097 bytes.
fn refusals(rt: &impl Print, long: &[u8]) -> io::Result<()> {
    show(rt, b"prof", 0, 8, 0)?;
    show(rt, b"prof", 0, 8, 1)?;
    show(rt, b"prof", 513, 8, 8)?;
    show(rt, b"prof", 513, 8, 9)?;
    show(rt, b"prof", 64, 8, 0)?;
    show(rt, b"prof", 64, 8, 2)?;
    show(rt, b"prof", 65, 8, 1)?;
    show(rt, b"prof", 65, 8, 3)?;
    show(rt, b"prof", 512, 8, 7)?;
    show(rt, b"prof", 12, 0, 1)?;
    show(rt, b"prof", 70, 9, 2)?;
    show(rt, long, 64, 8, 1)?;
    show(rt, long, 0, 0, 1)?;
    show(rt, long, 64, 0, 1)?;
    show(rt, long, 70, 0, 1)?;
    show(rt, long, 70, 0, 2)?;
    Ok(())
}

// A query's words in a block's text: the signature covers the query's, and another one does not.
fn covered(rt: &impl Print, width: u32, lent: usize) -> io::Result<()>
    requires { (0 < lent) × (lent ≤ MOST_WORDS) }
{
    let block = show(rt, b"the quick brown fox\njumps", width, 3, lent)?;
    let query = show(rt, b"fox the", width, 3, lent)?;
    let other = show(rt, b"lazy dog", width, 3, lent)?;
    let same = u8::from(Wanted::of(&query[..lent]).is_covered_by(&block[..lent]));
    let another = u8::from(Wanted::of(&other[..lent]).is_covered_by(&block[..lent]));
    println!(rt; "covers {same} {another}")
}

// The words of a text, counted from 1, and the empty part where there is none.
fn words_of(rt: &impl Print, long: &[u8]) -> io::Result<()> {
    split(rt, b"  the quick\n\nfox\n", 0)?;
    split(rt, b"  the quick\n\nfox\n", 1)?;
    split(rt, b"  the quick\n\nfox\n", 2)?;
    split(rt, b"  the quick\n\nfox\n", 3)?;
    split(rt, b"  the quick\n\nfox\n", 4)?;
    split(rt, b"last", 1)?;
    split(rt, b"", 1)?;
    split(rt, long, 1)
}

// Bytes that go up from 0 to 250 again and again: a text with separators and words of several lengths.
fn fill(text: &mut [u8]) {
    for (i, byte) in text.iter_mut().enumerate() {
        *byte = (i % 251) as u8;
    }
}

fn main(rt: HostRuntime) -> io::Result<()> {
    let mut text = [0u8; 4097];
    fill(&mut text);
    triplets(&rt)?;
    edges(&rt)?;
    show(&rt, &text[0..4096], 64, 8, 1)?;
    show(&rt, &text[0..4096], 12, 1, 1)?;
    wide(&rt, &text[0..4096])?;
    many(&rt)?;
    refusals(&rt, &text)?;
    covered(&rt, 64, 1)?;
    covered(&rt, 70, 2)?;
    words_of(&rt, &text)
}

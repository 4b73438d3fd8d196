// Words: the splitter, which gives back a word of a text, and the signer, which fills lent words with the text's signature.
#![tactic(auto)]

mod draft;
mod question;
mod signer;
mod splitter;

ghost use Rattle.std.specs.Prelude.{◌≤◌, length, IfOk};
ghost use Rattle.answers.specs.Answers.{answer_of};
ghost use Rattle.model.specs.Words.{WordPromise, PlacePromise, SignPromise};
ghost use Rattle.words.specs.Parts.{start_in, size_in};

use answers::Refusal;
use std::ops::Range;

// Word n of the text, counted from 1, as the part of the text that it occupies; the empty part at its end where there is none.
// Document 01 names this form: a refused text gives back a part too, so the answer's number is in a lent word.
pub fn word<'a>(text: &'a [u8], n: u32, answer: &mut u32) -> &'a [u8]
    ensures { WordPromise text.entry n answer.new result }
{
    let place = word_place(text, n);
    *answer = answers::answer(&place);
    match place {
        Ok(place) => &text[place],
        Err(_) => &text[text.len()..],
    }
}

// The same for a caller who cannot be handed a part: its place.
pub fn word_place(text: &[u8], n: u32) -> Result<Range<usize>, Refusal>
    ensures promise { PlacePromise text.now n (answer_of result) (start_in text.now result) (size_in result) }
    ensures inside { IfOk result (λ place. (place.start ≤ place.end) × (place.end ≤ length text.now)) }
{
    question::word_asks(text)?;
    Ok(splitter::locate(text, n))
}

// Fills the lent words, as many as the width has, with the text's signature, high word first: each word of the text sets its first k
// different positions.
pub fn sign(text: &[u8], width: u32, k: u32, signature: &mut [u64]) -> Result<(), Refusal>
    ensures { SignPromise width k text.now signature.old (answer_of result) signature.new }
{
    let signer = question::signer(text, width, k, signature.len())?;
    signer.sign(text, signature);
    Ok(())
}

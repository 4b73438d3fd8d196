// The questions of the signer, of which the first no decides, and the splitter's one.
ghost use Rattle.std.specs.Prelude.{◌≡◌, ◌<◌, ◌≤◌, length, IfOk, IfErr};
ghost use Rattle.answers.specs.Answers.{answer_of};
ghost use Rattle.model.specs.Wide.{word_count};
ghost use Rattle.model.specs.Words.{longest_text, word_refusal, sign_refusal};

use crate::signer::Signer;
use answers::Refusal;

// question 12: the longest text
const LONGEST_TEXT: usize = 4096;

// question 13: k is 1 to this
const MOST_POSITIONS: u32 = 8;

// Question 12.
pub fn word_asks(text: &[u8]) -> Result<(), Refusal>
    ensures number { answer_of result ≡ word_refusal text.now }
    ensures passed { IfOk result (λ _. length text.now ≤ longest_text) }
    ensures refused { IfErr result (λ _. longest_text < length text.now) }
{
    if text.len() > LONGEST_TEXT {
        return Err(Refusal::LongText);
    }
    Ok(())
}

// Question 4 for the width and for the words lent, then 12 and 13, then the signer.
pub fn signer(text: &[u8], width: u32, k: u32, lent: usize) -> Result<Signer, Refusal>
    ensures number { answer_of result ≡ sign_refusal width k lent text.now }
    ensures asked { IfOk result (λ signer. (signer.width ≡ width) × (signer.k ≡ k) × (lent ≡ word_count width)) }
{
    if !signature::is_width(width) || lent != signature::words_of(width) {
        return Err(Refusal::Unfit);
    }
    word_asks(text)?;
    if !(1..=MOST_POSITIONS).contains(&k) {
        return Err(Refusal::NoSuchCount);
    }
    Ok(Signer { width, k })
}

// Slips: bytes of any length from software nobody here has seen. The questions of document 01 that are asked of them, and the call that a
// slip carries. Its signature or query is read into a lent field of W words. Of the tables the reader is told only whether they fit.
#![tactic(auto)]

ghost use Rattle.std.specs.Prelude.{◌≡◌, ℕ, ◌+◌, ◌*◌, ◌≤◌, ◌&&◌, Bool, true, List, OnOk, length, eqb};
ghost use Rattle.model.specs.Limits.{widest};
ghost use Rattle.model.specs.Wide.{word_count};
ghost use Rattle.model.specs.Questions.{Asked, slip_length, number_at, words_at, kind_in, block_in, zeros_in, no_field, Call, file, withdraw, rebuild, search, carries, ask_slip, read_kind};
ghost use Rattle.slips.specs.Order.{reading_of, Leaves, Reads, after, ask_form, ask_told};

use answers::Refusal;

// The bytes of a slip before its words: the kind, three that no kind uses, and the block.
const HEAD: usize = 8;

// The bytes of a word.
const WORD: usize = 8;

// How long a slip of kind 0 is: it has one word, whatever the width.
pub const SHORT: usize = HEAD + WORD;

// The call that a slip carries, with the fields that it uses. The words of a filing or a search stand in the lent field.
#[derive(Clone, Copy, Debug, PartialEq, Eq)]
pub enum Order {
    Clear { width: u32 },
    File { block: u32 },
    Withdraw { block: u32 },
    Rebuild,
    Search,
}

// How long a slip of another kind is, whose field has W words.
pub fn length_of(words: usize) -> usize
    requires { words ≤ word_count widest }
    ensures { result ≡ slip_length words }
{
    HEAD + WORD * words
}

// The kind: byte 0.
#[tactic(auto, unfolding(model::specs::Questions::number_at))]
pub fn kind_of(slip: &[u8]) -> u8
    requires { 1 ≤ length slip.now }
    ensures { result ≡ kind_in slip.now }
{
    slip[0]
}

// Whether bytes 1 to 3, which no kind uses, are 0.
#[tactic(auto, unfolding(model::specs::Questions::number_at))]
fn reserved_zero(slip: &[u8]) -> bool
    requires { 8 ≤ length slip.now }
    ensures { result ≡ zeros_in slip.now }
{
    matches!(slip, [_, 0, 0, 0, ..])
}

// The block field, or the width of a clear: bytes 4 to 7, high byte first.
#[tactic(auto, unfolding(model::specs::Questions::number_at))]
pub fn block_field(slip: &[u8]) -> u32
    requires { 8 ≤ length slip.now }
    ensures { result ≡ block_in slip.now }
{
    u32::from_be_bytes(slip[4..8].try_into().unwrap())
}

// Word i of the field, counted from 0, the high word first: eight bytes, high byte first.
#[tactic(auto, unfolding(model::specs::Questions::number_at))]
fn word(slip: &[u8], i: usize) -> u64
    requires { slip_length (i + 1) ≤ length slip.now }
    ensures { result ≡ number_at slip.now (8 + 8 * i) 8 }
{
    let at = HEAD + WORD * i;
    u64::from_be_bytes(slip[at..at + WORD].try_into().unwrap())
}

// Whether the field's words are 0.
#[tactic(auto, using(crate::proofs::Fields::zero_none, crate::proofs::Fields::zero_more, crate::proofs::Fields::not_zero))]
fn words_zero(slip: &[u8], words: usize) -> bool
    requires { slip_length words ≤ length slip.now }
    ensures { result ≡ no_field slip.now words }
{
    for i in 0..words {
        if word(slip, i) != 0 {
            return false;
        }
    }
    true
}

// Reads the field's words, as many as have room.
#[tactic(auto, using(crate::proofs::Fields::words_none, crate::proofs::Fields::words_more, std::proofs::lemmas::List::take_more_set))]
fn read_words(slip: &[u8], field: &mut [u64])
    requires { slip_length (length field.old) ≤ length slip.now }
    ensures words { field.new ≡ words_at slip.now 8 (length field.old) }
    ensures long { length field.new ≡ length field.old }
{
    for (i, value) in field.iter_mut().enumerate() {
        *value = word(slip, i);
    }
}

// Questions 1 and 3, as far as all kinds ask them: the length of so many words, and the bytes that no kind uses.
#[tactic(auto, unfolding(crate::specs::Order::ask_form, model::specs::Questions::ask_slip))]
fn check_form(slip: &[u8], words: usize) -> Result<(), Refusal>
    requires { words ≤ word_count widest }
    ensures asked { (unused : Bool) (c : Call) → after result (ask_slip 3 unused (carries c)) ≡ ask_form slip.now words unused c }
    ensures long { OnOk result (length slip.now ≡ slip_length words) }
{
    if slip.len() != length_of(words) {
        return Err(Refusal::NotASlip);
    }
    if !reserved_zero(slip) {
        return Err(Refusal::FieldUsed);
    }
    Ok(())
}

// Questions 4, 1 and 3, as far as kinds 1 to 4 share them.
#[tactic(auto, unfolding(crate::specs::Order::ask_told, model::specs::Questions::ask_slip))]
fn check(slip: &[u8], fit: bool, words: usize) -> Result<(), Refusal>
    requires { words ≤ word_count widest }
    ensures asked { (unused : Bool) (c : Call) → after result (ask_slip 3 unused (carries c)) ≡ ask_told slip.now fit words unused c }
    ensures long { OnOk result (length slip.now ≡ slip_length words) }
{
    if !fit {
        return Err(Refusal::Unfit);
    }
    check_form(slip, words)
}

// Kind 0. It asks nothing of the tables.
#[tactic(auto, unfolding(crate::specs::Order::ask_form, model::specs::Questions::ask_slip, model::specs::Questions::read_kind))]
fn read_clear(slip: &[u8]) -> Result<Order, Refusal>
    ensures { (A : Asked) (ws : List ℕ) → reading_of result ws ≡ read_kind A slip.now 0 }
{
    check_form(slip, 1)?;
    if !words_zero(slip, 1) {
        return Err(Refusal::FieldUsed);
    }
    Ok(Order::Clear {
        width: block_field(slip),
    })
}

// Kind 1.
#[tactic(auto, unfolding(model::specs::Questions::ask_slip))]
fn read_file(slip: &[u8], fit: bool, field: &mut [u64]) -> Result<Order, Refusal>
    requires { length field.old ≤ word_count widest }
    ensures reads { reading_of result field.new ≡ ask_told slip.now fit (length field.old) true (file (block_in slip.now) (words_at slip.now 8 (length field.old))) }
    ensures leaves { Leaves result field.old field.new }
{
    check(slip, fit, field.len())?;
    read_words(slip, field);
    Ok(Order::File {
        block: block_field(slip),
    })
}

// Kind 2.
#[tactic(auto, unfolding(model::specs::Questions::ask_slip))]
fn read_withdraw(slip: &[u8], fit: bool, words: usize) -> Result<Order, Refusal>
    requires { words ≤ word_count widest }
    ensures { (ws : List ℕ) → reading_of result ws ≡ ask_told slip.now fit words (no_field slip.now words) (withdraw (block_in slip.now)) }
{
    check(slip, fit, words)?;
    if !words_zero(slip, words) {
        return Err(Refusal::FieldUsed);
    }
    Ok(Order::Withdraw {
        block: block_field(slip),
    })
}

// Kind 3.
#[tactic(auto, unfolding(model::specs::Questions::ask_slip))]
fn read_rebuild(slip: &[u8], fit: bool, words: usize) -> Result<Order, Refusal>
    requires { words ≤ word_count widest }
    ensures { (ws : List ℕ) → reading_of result ws ≡ ask_told slip.now fit words (eqb (block_in slip.now) 0 && no_field slip.now words) rebuild }
{
    check(slip, fit, words)?;
    if block_field(slip) != 0 || !words_zero(slip, words) {
        return Err(Refusal::FieldUsed);
    }
    Ok(Order::Rebuild)
}

// Kind 4.
#[tactic(auto, unfolding(model::specs::Questions::ask_slip))]
fn read_search(slip: &[u8], fit: bool, field: &mut [u64]) -> Result<Order, Refusal>
    requires { length field.old ≤ word_count widest }
    ensures reads { reading_of result field.new ≡ ask_told slip.now fit (length field.old) (eqb (block_in slip.now) 0) (search (words_at slip.now 8 (length field.old))) }
    ensures leaves { Leaves result field.old field.new }
{
    check(slip, fit, field.len())?;
    if block_field(slip) != 0 {
        return Err(Refusal::FieldUsed);
    }
    read_words(slip, field);
    Ok(Order::Search)
}

// The call that a slip carries: an empty slip gets 1, else question 2 comes first, and then those of its kind, in its order. `fit`: the
// tables fit, as all calls but clear ask it; then the field has W words, and else any number. It is written only where the words belong to
// the call. Document 01 asks that the kind's byte be decided by one match, with a range for the unknown kinds. (No `TryFrom`: beside this
// function, which callers have, it would be the same again.)
pub fn read(slip: &[u8], fit: bool, field: &mut [u64]) -> Result<Order, Refusal>
    requires { length field.old ≤ word_count widest }
    ensures reads { Reads slip.now fit (length field.old) (reading_of result field.new) }
    ensures leaves { Leaves result field.old field.new }
    ensures long { length field.new ≡ length field.old }
{
    if slip.is_empty() {
        return Err(Refusal::NotASlip);
    }
    match kind_of(slip) {
        0 => read_clear(slip),
        1 => read_file(slip, fit, field),
        2 => read_withdraw(slip, fit, field.len()),
        3 => read_rebuild(slip, fit, field.len()),
        4 => read_search(slip, fit, field),
        5..=255 => Err(Refusal::UnknownKind),
    }
}

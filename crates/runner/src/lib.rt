// Serves slips from a reader and writes a line for each. The slices are the caller's: the tables, those to work in, a buffer of input
// and a buffer of text. The signatures are words enough for an index of any width, and a slip is lent the first of them, as many as its
// width takes. A line is written as soon as its slip is complete, and no byte of it is dropped. (What the functions hand on stays parameters,
// with the text's room, the index and the loans in each contract: a struct of them would hold `&mut`s, beside which the check covers no ghost
// field, and would have to say in each contract that it holds the same slices.)
#![tactic(auto)]

mod input;
mod lending;
mod program;
mod text;

ghost use Rattle.std.specs.Prelude.{◌≡◌, ◌+◌, ◌*◌, ◌≤◌, ◌<◌, length, get_or, take, IfOk, IsTrue, ◌↔◌};
ghost use Rattle.answers.specs.Answers.{report_of};
ghost use Rattle.lines.specs.Text.{HasRoom, Puts};
ghost use Rattle.tables.specs.Changed.{SameLoans};
ghost use Rattle.model.specs.PackedLists.{PackedSlip};
ghost use Rattle.sigtree.specs.Face.{lent};
ghost use Rattle.sigtree.specs.Held.{lent_in, SameWork};
ghost use Rattle.runner.specs.Served.{slip_size, NoSlip, line_with, Served, Batched, Drained, Ended, Whole, Took, IndexIn};

use answers::{Counts, Refusal};
use lines::Line;
pub use program::{Index, sigrun};
use signature::MOST_WORDS;
use sigtree::Work;
use std::io::{Read, Write};
use tables::{TablesMut, front};

// Puts the line of an outcome and the blocks at the front of the output after the first `at` bytes of the text.
fn put_line(
    text: &mut [u8],
    at: usize,
    kind: u8,
    outcome: Result<Counts, Refusal>,
    output: &[u32],
) -> usize
    requires { IfOk outcome (λ counts. counts.found ≤ length output.now) × HasRoom text.old at output.now }
    ensures puts { Puts text.old at (line_with kind (report_of outcome) output.now) result text.new }
    ensures short { result ≤ at + 48 + 11 * length output.now }
{
    let found = outcome.unwrap_or_default().found as usize;
    let line = Line {
        kind,
        report: outcome.into(),
        blocks: &output[..found],
    };
    line.put(text, at)
}

// Carries out the slip on the slices. (They are lent one by one: of a part of a slice that is put into a struct where it is cut off, the check
// knows nothing afterwards.)
fn carry_lent(
    signatures: &mut [u64],
    links: &mut [u32],
    nodes: &mut [u64],
    work: &mut Work,
    slip: &[u8],
) -> Result<Counts, Refusal>
    ensures promise { PackedSlip slip.now (lent signatures.old links.old nodes.old work.old.scratch.now work.old.marks.now work.old.output.now) (report_of result) (lent signatures.new links.new nodes.new work.new.scratch.now work.new.marks.now work.new.output.now) }
    ensures found { IfOk result (λ counts. counts.found ≤ length work.new.output.now) }
    ensures loans { SameWork work.old work.new }
{
    let mut tables = TablesMut {
        signatures,
        links,
        nodes,
    };
    sigtree::carry_out(slip, &mut tables, work)
}

// Carries out one slip on the words that it is lent, and puts its line after the first `at` bytes of the text.
fn serve_one(
    tables: &mut TablesMut,
    work: &mut Work,
    slip: &[u8],
    text: &mut [u8],
    at: usize,
) -> usize
    requires room { (0 < length slip.now) × HasRoom text.old at work.old.output.now }
    requires index { IndexIn tables.old }
    ensures served { Served slip.now (lent_in tables.old work.old) (lent_in tables.new work.new) text.old at result text.new }
    ensures loans { SameLoans tables.old tables.new × SameWork work.old work.new }
{
    let words = lending::lent_count(tables, slip);
    let outcome = carry_lent(
        &mut tables.signatures[..words],
        tables.links,
        tables.nodes,
        work,
        slip,
    );
    let output = &mut *work.output;
    put_line(text, at, slip[0], outcome, output)
}

// Where a batch of slips ends, and how many bytes of text their lines are.
#[derive(Clone, Copy, Debug, PartialEq, Eq)]
struct BatchEnd {
    at: usize,
    used: usize,
}

// Serves slips from the front of the bytes on, while there are whole ones and the text has room for a line.
fn batch(tables: &mut TablesMut, work: &mut Work, bytes: &[u8], text: &mut [u8]) -> BatchEnd
    requires room { HasRoom text.old 0 work.old.output.now }
    requires index { IndexIn tables.old }
    ensures served { Batched bytes.now (lent_in tables.old work.old) (lent_in tables.new work.new) result.at result.used text.new }
    ensures some { slip_size tables.old.links.now (get_or bytes.now 0 0) ≤ length bytes.now → 0 < result.at }
    ensures loans { SameLoans tables.old tables.new × SameWork work.old work.new }
{
    let most = 48 + 11 * work.output.len();
    let mut at = 0;
    let mut used = 0;
    while text.len() - used >= most {
        let Some(slip) = lending::first_slip(tables, &bytes[at..]) else {
            return BatchEnd { at, used };
        };
        used = serve_one(tables, work, slip, text, used);
        at += slip.len();
    }
    BatchEnd { at, used }
}

// Serves every whole slip of the bytes, and answers where the rest begins. How far a batch went is told by the batch, so no iterator over
// slips serves the loop.
fn drain<W: Write>(
    writer: &mut W,
    tables: &mut TablesMut,
    work: &mut Work,
    bytes: &[u8],
    text: &mut [u8],
) -> usize
    requires room { HasRoom text.old 0 work.old.output.now }
    requires index { IndexIn tables.old }
    ensures drained { Drained bytes.now (lent_in tables.old work.old) (lent_in tables.new work.new) result }
    ensures loans { SameLoans tables.old tables.new × SameWork work.old work.new }
{
    let mut at = 0;
    while lending::first_slip(tables, &bytes[at..]).is_some() {
        let served = batch(tables, work, &bytes[at..], text);
        text::flush(writer, &text[..served.used]);
        at += served.at;
    }
    at
}

// What is left at the end: a slip, which is short, unless no byte is left.
fn last<W: Write>(
    writer: &mut W,
    tables: &mut TablesMut,
    work: &mut Work,
    slip: &[u8],
    text: &mut [u8],
)
    requires room { HasRoom text.old 0 work.old.output.now }
    requires index { IndexIn tables.old }
    requires short { NoSlip tables.old.links.now slip.now }
    ensures ended { Ended (lent_in tables.old work.old) slip.now (lent_in tables.new work.new) }
    ensures loans { SameLoans tables.old tables.new × SameWork work.old work.new }
{
    if slip.is_empty() {
        return;
    }
    let used = serve_one(tables, work, slip, text, 0);
    text::flush(writer, &text[..used]);
}

// Serves every whole slip until the input ends, and answers how many bytes are left, at the front, as a read answers how many it gave.
// Nothing says that the input ends, so the loop counts its turns to a number that no run comes to.
fn serve_whole<R: Read, W: Write>(
    reader: &mut R,
    writer: &mut W,
    tables: &mut TablesMut,
    work: &mut Work,
    bytes: &mut [u8],
    text: &mut [u8],
) -> usize
    requires room { HasRoom text.old 0 work.old.output.now }
    requires index { IndexIn tables.old }
    ensures whole { Whole (R.remaining reader.old) (R.remaining reader.new) (lent_in tables.old work.old) (lent_in tables.new work.new) (take result bytes.new) }
    ensures inside { result ≤ length bytes.new }
    ensures loans { SameLoans tables.old tables.new × SameWork work.old work.new }
{
    let mut kept = 0;
    for _ in 0..u64::MAX {
        let read = input::fill(reader, &mut bytes[kept..]);
        if read == 0 {
            return kept;
        }
        let end = kept + read;
        let from = drain(writer, tables, work, &bytes[..end], text);
        kept = input::shift(&mut bytes[..end], from);
    }
    kept
}

// Serves slips until the input ends. (What is written has no clause: see `flush`.)
fn serve_all<R: Read, W: Write>(
    reader: &mut R,
    writer: &mut W,
    tables: &mut TablesMut,
    work: &mut Work,
    bytes: &mut [u8],
    text: &mut [u8],
)
    requires room { HasRoom text.old 0 work.old.output.now }
    requires index { IndexIn tables.old }
    ensures took { Took (R.remaining reader.old) (R.remaining reader.new) (lent_in tables.old work.old) (lent_in tables.new work.new) }
    ensures loans { SameLoans tables.old tables.new × SameWork work.old work.new }
{
    let kept = serve_whole(reader, writer, tables, work, bytes, text);
    last(writer, tables, work, &bytes[..kept], text);
}

// Are links and nodes those of an index, with words for one of any width?
fn holds_index(tables: &TablesMut) -> bool
    ensures { IsTrue result ↔ IndexIn tables.now }
{
    let links = tables.links.len();
    front::lengths_fit(links, tables.nodes.len())
        && tables.signatures.len() >= MOST_WORDS * front::packed_blocks(links)
}

// Serves the slips of the reader: none where no index is held with words for any width, or the text has no room for a line. (The room is
// divided: a product of any length might not fit a word.)
#[tactic(auto, using(crate::proofs::Taken::took_none))]
pub fn serve<R: Read, W: Write>(
    reader: &mut R,
    writer: &mut W,
    tables: &mut TablesMut,
    work: &mut Work,
    bytes: &mut [u8],
    text: &mut [u8],
)
    ensures took { Took (R.remaining reader.old) (R.remaining reader.new) (lent_in tables.old work.old) (lent_in tables.new work.new) }
    ensures loans { SameLoans tables.old tables.new × SameWork work.old work.new }
{
    if !holds_index(tables) {
        return;
    }
    if text.len() < 48 || (text.len() - 48) / 11 < work.output.len() {
        return;
    }
    serve_all(reader, writer, tables, work, bytes, text);
}

// The calls with plain numbers and slices, under the names that C has for them: each hands on to the crate of its call, whose promise it
// repeats in document 01's numbers, and none asks anything of its caller. (A `Result` says the same where it can be had; a caller who
// holds slices and numbers, as `sigtree_c` does, needs neither a struct of them nor the enum of refusals.)
ghost use Rattle.model.specs.PackedPromises.{PackedClear, PackedFile, PackedWithdraw, PackedRebuild, PackedSearch, PackedAudit, PackPromise, UnpackPromise};
ghost use Rattle.model.specs.PackedLists.{PackedSlip};
ghost use Rattle.std.specs.Prelude.{◌≡◌};
ghost use Rattle.answers.specs.Answers.{report_of};
ghost use Rattle.sigtree.specs.Face.{lent, reported};
ghost use Rattle.model.specs.Words.{SignPromise, PlacePromise};

use crate::slip::carry_out;
use crate::work::Work;
use answers::{Counts, Refusal, Report, answer};
use tables::TablesMut;

// Empties the index and sets its width.
pub fn sigtree_clear(
    signatures: &mut [u64],
    links: &mut [u32],
    nodes: &mut [u64],
    width: u32,
) -> u32
    ensures { PackedClear signatures.old links.old nodes.old width result signatures.new links.new nodes.new }
{
    let mut tables = TablesMut {
        signatures,
        links,
        nodes,
    };
    answer(&clear::clear(&mut tables, width))
}

// Files a block with its signature.
pub fn sigtree_file(
    signatures: &mut [u64],
    links: &mut [u32],
    nodes: &mut [u64],
    block: u32,
    signature: &[u64],
) -> u32
    ensures { PackedFile signatures.old links.old nodes.old block signature.now result signatures.new links.new nodes.new }
{
    let mut tables = TablesMut {
        signatures,
        links,
        nodes,
    };
    answer(&file::file(&mut tables, block, signature))
}

// Takes a block out.
pub fn sigtree_withdraw(
    signatures: &mut [u64],
    links: &mut [u32],
    nodes: &mut [u64],
    block: u32,
) -> u32
    ensures { PackedWithdraw signatures.old links.old nodes.old block result signatures.new links.new nodes.new }
{
    let mut tables = TablesMut {
        signatures,
        links,
        nodes,
    };
    answer(&withdraw::withdraw(&mut tables, block))
}

// Makes the tree anew.
pub fn sigtree_rebuild(
    signatures: &[u64],
    links: &mut [u32],
    nodes: &mut [u64],
    scratch: &mut [u32],
) -> u32
    ensures { PackedRebuild signatures.now links.old nodes.old scratch.old result links.new nodes.new scratch.new }
{
    answer(&rebuild::rebuild(signatures, links, nodes, scratch))
}

// Tells the counts and gives the answer.
fn tell(
    outcome: Result<Counts, Refusal>,
    found: &mut u32,
    compares: &mut u32,
    bits: &mut u32,
) -> u32
    ensures { reported result found.new compares.new bits.new ≡ report_of outcome }
{
    let Report { answer, counts } = Report::from(outcome);
    *found = counts.found;
    *compares = counts.compares;
    *bits = counts.bits;
    answer
}

// Lists the filed blocks whose signature covers the query.
pub fn sigtree_search(
    signatures: &[u64],
    links: &[u32],
    nodes: &[u64],
    query: &[u64],
    marks: &mut [u8],
    output: &mut [u32],
    found: &mut u32,
    compares: &mut u32,
    bits: &mut u32,
) -> u32
    ensures { PackedSearch signatures.now links.now nodes.now query.now marks.old output.old (reported result found.new compares.new bits.new) marks.new output.new }
{
    let outcome = search::search(signatures, links, nodes, query, marks, output);
    tell(outcome, found, compares, bits)
}

// Are the tables sound?
pub fn sigtree_audit(signatures: &[u64], links: &[u32], nodes: &[u64]) -> u32
    ensures { PackedAudit signatures.now links.now nodes.now result }
{
    answer(&audit::audit(signatures, links, nodes))
}

// From tables of 5B + 2 links to packed ones.
pub fn sigtree_pack(signatures: &[u64], old: &[u32], links: &mut [u32], nodes: &mut [u64]) -> u32
    ensures { PackPromise signatures.now old.now links.old nodes.old result links.new nodes.new }
{
    answer(&convert::pack(signatures, old, links, nodes))
}

// And back.
pub fn sigtree_unpack(signatures: &[u64], links: &[u32], nodes: &[u64], old: &mut [u32]) -> u32
    ensures { UnpackPromise signatures.now links.now nodes.now old.old result old.new }
{
    answer(&convert::unpack(signatures, links, nodes, old))
}

// Carries out a slip: any bytes of any length.
pub fn sigtree_slip(
    slip: &[u8],
    signatures: &mut [u64],
    links: &mut [u32],
    nodes: &mut [u64],
    scratch: &mut [u32],
    marks: &mut [u8],
    output: &mut [u32],
    found: &mut u32,
    compares: &mut u32,
    bits: &mut u32,
) -> u32
    ensures { PackedSlip slip.now (lent signatures.old links.old nodes.old scratch.old marks.old output.old) (reported result found.new compares.new bits.new) (lent signatures.new links.new nodes.new scratch.new marks.new output.new) }
{
    let mut tables = TablesMut {
        signatures,
        links,
        nodes,
    };
    let mut work = Work {
        scratch,
        marks,
        output,
    };
    tell(
        carry_out(slip, &mut tables, &mut work),
        found,
        compares,
        bits,
    )
}

// Signs a text: its signature in the lent words.
pub fn sigtree_sign(text: &[u8], width: u32, k: u32, signature: &mut [u64]) -> u32
    ensures { SignPromise width k text.now signature.old result signature.new }
{
    answer(&words::sign(text, width, k, signature))
}

// Where word n of a text stands. It stands in for the splitter, whose returned part C cannot have.
pub fn sigtree_word(text: &[u8], n: u32, start: &mut usize, size: &mut usize) -> u32
    ensures { PlacePromise text.now n result start.new size.new }
{
    let outcome = words::word_place(text, n);
    let told = answer(&outcome);
    let place = outcome.unwrap_or(text.len()..text.len());
    *start = place.start;
    *size = place.len();
    told
}

// How long a slip is, and how many of the words held it is lent: by its first bytes and the index's width.
ghost use Rattle.std.specs.Prelude.{◌≡◌, ◌≤◌, length, MatchOption};
ghost use Rattle.model.specs.Limits.{most_blocks};
ghost use Rattle.runner.specs.Served.{slip_size, IsSlip, NoSlip, words_by, clears, lent_count, IndexIn};

use signature::{is_width, words_of};
use slips::{SHORT, block_field, kind_of, length_of};
use tables::front::packed_blocks;
use tables::{TablesMut, address};

// How many bytes a slip of the kind has, at the index's width. A clear has one word; so has an unknown kind, and any on an index not yet
// cleared.
#[tactic(auto, unfolding(crate::specs::Served::slip_size))]
fn slip_size(links: &[u32], kind: u8) -> usize
    requires { 1 ≤ length links.now }
    ensures { result ≡ slip_size links.now kind }
{
    let width = links[address::WIDTH];
    match kind {
        1..=4 if is_width(width) => length_of(words_of(width)),
        _ => SHORT,
    }
}

// The slip at the front of the bytes, where the whole of it is there.
#[tactic(auto, using(crate::proofs::Lengths::size_some, crate::proofs::Lengths::index_links))]
pub fn first_slip<'a>(tables: &TablesMut, bytes: &'a [u8]) -> Option<&'a [u8]>
    requires { IndexIn tables.now }
    ensures { MatchOption result (NoSlip tables.now.links.now bytes.now) (λ slip. IsSlip tables.now.links.now bytes.now slip.now) }
{
    bytes.get(..slip_size(tables.links, *bytes.first()?))
}

// Whether the slip is a whole clear, to a width that there is.
#[tactic(auto, unfolding(crate::specs::Served::clears))]
fn is_clear(slip: &[u8]) -> bool
    ensures { result ≡ clears slip.now }
{
    slip.len() == SHORT && kind_of(slip) == 0 && is_width(block_field(slip))
}

// The words of so many signatures of a width; none where there is no such width.
#[tactic(auto, unfolding(crate::specs::Served::words_by))]
fn words_by(blocks: usize, width: u32) -> usize
    requires { blocks ≤ most_blocks }
    ensures { result ≡ words_by blocks width }
{
    if is_width(width) {
        blocks * words_of(width)
    } else {
        0
    }
}

// How many of the words held a slip is lent: those of a clear's own width, else those of the index's.
#[tactic(auto, using(crate::proofs::Lengths::clears_asks, crate::proofs::Lengths::words_most, crate::proofs::Lengths::index_links))]
pub fn lent_count(tables: &TablesMut, slip: &[u8]) -> usize
    requires { IndexIn tables.now }
    ensures count { result ≡ lent_count tables.now.links.now slip.now }
    ensures enough { result ≤ length tables.now.signatures.now }
{
    let width = if is_clear(slip) {
        block_field(slip)
    } else {
        tables.links[address::WIDTH]
    };
    words_by(packed_blocks(tables.links.len()), width)
}

// Question 4: do the lengths, B, F and words 0 and 1 fit? And question 5, is a block one of the tables'?
ghost use Rattle.std.specs.Prelude.{◌≡◌, ◌&&◌, eqb, leb, ◌-◌, ◌*◌, ◌/◌, ◌≤◌, length};
ghost use Rattle.model.specs.Limits.{widest, most_blocks};
ghost use Rattle.model.specs.Wide.{word_count};
ghost use Rattle.model.specs.Tables.{links_of, width_of, told_blocks};
ghost use Rattle.model.specs.Packed.{rows_of};
ghost use Rattle.model.specs.Questions.{blocks_fit, width_fits};

use crate::address;

// the largest number of blocks
const MOST_BLOCKS: usize = 65535;

// Can tables have so many blocks?
pub fn blocks_fit(blocks: usize) -> bool
    ensures { result ≡ blocks_fit blocks }
{
    (1..=MOST_BLOCKS).contains(&blocks)
}

// B, told from the number of links.
pub fn packed_blocks(links: usize) -> usize
    ensures { result ≡ (links - 5) / 2 }
{
    links.saturating_sub(5) / 2
}

// Do the lengths of links and nodes, and B, fit?
pub fn lengths_fit(links: usize, nodes: usize) -> bool
    ensures { result ≡ (blocks_fit ((links - 5) / 2) && eqb links (rows_of ((links - 5) / 2)) && eqb nodes ((links - 5) / 2 - 1)) }
{
    let blocks = packed_blocks(links);
    blocks_fit(blocks) && links == 2 * blocks + 5 && nodes == blocks - 1
}

// The same of the form of 5 * B + 2 links, which has no nodes beside them.
pub fn unpacked_blocks(links: usize) -> usize
    ensures { result ≡ (links - 2) / 5 }
{
    links.saturating_sub(2) / 5
}

pub fn unpacked_lengths(links: usize) -> bool
    ensures { result ≡ (blocks_fit ((links - 2) / 5) && eqb links (links_of ((links - 2) / 5))) }
{
    let blocks = unpacked_blocks(links);
    blocks_fit(blocks) && links == 5 * blocks + 2
}

// Do the lengths of links and nodes fit tables of the other form, of so many links, that are packed into them?
pub fn pack_fits(old: usize, links: usize, nodes: usize) -> bool
    ensures { result ≡ (eqb links (rows_of ((old - 2) / 5)) && eqb nodes ((old - 2) / 5 - 1)) }
{
    let blocks = unpacked_blocks(old);
    links == 2 * blocks + 5 && nodes == blocks.saturating_sub(1)
}

// And back: do the lengths of links and nodes fit, and that of the links that they are unpacked into?
pub fn unpack_fits(links: usize, nodes: usize, old: usize) -> bool
    ensures { result ≡ (blocks_fit ((links - 5) / 2) && eqb links (rows_of ((links - 5) / 2)) && eqb nodes ((links - 5) / 2 - 1) && eqb old (links_of ((links - 5) / 2))) }
{
    lengths_fit(links, nodes) && old == 5 * packed_blocks(links) + 2
}

// Is the width one that signatures can have?
pub use signature::is_width as width_fits;

// Do words 0 and 1 fit: the width, and the number of blocks?
pub fn words_fit(links: &[u32], blocks: usize) -> bool
    requires { 2 ≤ length links.now }
    ensures { result ≡ (width_fits (width_of links.now) && eqb (told_blocks links.now) blocks) }
{
    width_fits(links[address::WIDTH]) && links[address::BLOCKS] as usize == blocks
}

// Has the signature slice W words for each block?
pub fn signatures_fit(signatures: usize, blocks: usize, width: u32) -> bool
    requires { (blocks ≤ most_blocks) × (width ≤ widest) }
    ensures { result ≡ eqb signatures (blocks * word_count width) }
{
    signatures == blocks * signature::words_of(width)
}

// Question 5: is the block 1 to B?
pub fn is_block(block: u32, blocks: usize) -> bool
    ensures { result ≡ (leb 1 block && leb block blocks) }
{
    (1..=blocks).contains(&(block as usize))
}

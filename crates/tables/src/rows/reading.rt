// What is read of the words in front, of the rows and of the signatures.
ghost use Rattle.std.specs.Prelude.{◌≡◌, ◌≤◌, length};
ghost use Rattle.model.specs.Limits.{widest};
ghost use Rattle.model.specs.Wide.{word_count, number_in};
ghost use Rattle.model.specs.Tables.{width_of, root_of, free_of, count_of, next_of, filed_of, signature_of};
ghost use Rattle.tables.specs.Rows.{numbers};

use super::{Rows, filed_of, next_of, signature_of};
use crate::address;

impl<'a> Rows<'a> {
    // The number of blocks.
    pub fn blocks(&self) -> usize
        ensures { result ≡ length (numbers self.now) }
    {
        self.blocks
    }

    // The width of the signatures.
    pub fn width(&self) -> u32
        ensures value { result ≡ width_of self.now.links.now }
        ensures bound { (1 ≤ result) × (result ≤ widest) }
    {
        self.links[address::WIDTH]
    }

    // The reference to the tree.
    pub fn root(&self) -> u32
        ensures { result ≡ root_of self.now.links.now }
    {
        self.links[address::ROOT]
    }

    // The first free node.
    pub fn first_free(&self) -> u32
        ensures { result ≡ free_of self.now.links.now }
    {
        self.links[address::FREE]
    }

    // The count of filed blocks.
    pub fn count(&self) -> u32
        ensures { result ≡ count_of self.now.links.now }
    {
        self.links[address::COUNT]
    }

    // The next block on the block's chain.
    pub fn next_of(&self, block: usize) -> u32
        requires { (1 ≤ block) × (block ≤ length (numbers self.now)) }
        ensures { result ≡ next_of self.now.links.now block }
    {
        next_of(self.links, block)
    }

    // The block's filed word.
    pub fn filed_of(&self, block: usize) -> u32
        requires { (1 ≤ block) × (block ≤ length (numbers self.now)) }
        ensures { result ≡ filed_of self.now.links.now block }
    {
        filed_of(self.links, block)
    }

    // The block's signature.
    pub fn signature_of(&self, block: usize) -> &'a [u64]
        requires { (1 ≤ block) × (block ≤ length (numbers self.now)) }
        ensures number { number_in result.now ≡ signature_of (numbers self.now) block }
        ensures long { (length result.now ≡ word_count (width_of self.now.links.now)) × (1 ≤ length result.now) }
    {
        signature_of(self.signatures, self.words, block)
    }
}

// What is read of lent tables while they are stored to. (`Rows` reads the same words. It cannot be had here: its type says that the width is
// one, of which a store knows nothing.)
ghost use Rattle.std.specs.Prelude.{◌≡◌, ◌≤◌, ◌<◌};
ghost use Rattle.model.specs.Tables.{count_of, next_of, left_of};
ghost use Rattle.tables.specs.Changed.{links_in, blocks_in, PacksIn};

use crate::lent::TablesMut;
use crate::{address, nodes, rows};

impl TablesMut<'_> {
    // The number of blocks.
    pub fn blocks(&self) -> usize
        requires { PacksIn self.now }
        ensures { result ≡ blocks_in self.now }
    {
        self.nodes.len() + 1
    }

    // The count of filed blocks.
    pub fn count(&self) -> u32
        requires { PacksIn self.now }
        ensures { result ≡ count_of (links_in self.now) }
    {
        self.links[address::COUNT]
    }

    // The next block on the block's chain.
    pub fn next_of(&self, block: usize) -> u32
        requires { PacksIn self.now × (block ≤ blocks_in self.now) }
        ensures { result ≡ next_of (links_in self.now) block }
    {
        rows::next_of(self.links, block)
    }

    // The left reference of the node.
    pub fn left_of(&self, node: usize) -> u32
        requires { PacksIn self.now × (1 ≤ node) × (node < blocks_in self.now) }
        ensures { result ≡ left_of (blocks_in self.now) (links_in self.now) node }
    {
        nodes::left_in(nodes::word_of(self.nodes, node))
    }
}

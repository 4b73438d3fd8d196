// Tables that are lent to be changed. A store is named by what it stores to; what the stores leave is said of document 01's links, wherever
// a word of theirs lives: in the links, or in a part of a node's word.
ghost use Rattle.std.specs.Prelude.{◌≡◌, ◌&&◌, ◌*◌, ◌^◌, ◌≤◌, ◌<◌, length, replicate, set, IfOk};
ghost use Rattle.model.specs.Wide.{set_words};
ghost use Rattle.answers.specs.Answers.{answer_of};
ghost use Rattle.model.specs.Tables.{free_at, count_at, next_at, filed_at};
ghost use Rattle.model.specs.Stores.{stores};
ghost use Rattle.model.specs.Questions.{ask, asks_tables, tables_fit};
ghost use Rattle.model.specs.PackedPromises.{packed_fit};
ghost use Rattle.tables.specs.Changed.{links_in, blocks_in, node_stores, PacksIn, IsRead, Becomes, Signs};
ghost use Rattle.tables.specs.Places.{address_of, IsPlace};
ghost use Rattle.tables.specs.Sides.{side_number};

use crate::nodes::Parts;
use crate::packed::Tables;
use crate::place::Place;
use crate::side::Side;
use crate::{address, nodes, rows, stores};
use answers::Refusal;

// The slices, of which the type says nothing: whether they fit is asked where they are read. (A ghost field beside a `&mut` is not covered by the
// check, so a store asks for the lengths in its clauses.)
#[derive(Drop)]
pub struct TablesMut<'a> {
    pub signatures: &'a mut [u64],
    pub links: &'a mut [u32],
    pub nodes: &'a mut [u64],
}

impl TablesMut<'_> {
    // Question 4, and the tables to be read.
    pub fn read(&self) -> Result<Tables<'_>, Refusal>
        ensures asked { answer_of result ≡ ask 4 (packed_fit self.now.links.now self.now.nodes.now && tables_fit (asks_tables self.now.signatures.now (links_in self.now))) 0 }
        ensures read { IfOk result (IsRead self.now) }
    {
        Tables::of(self.signatures, self.links, self.nodes)
    }

    // Stores the block's signature.
    pub fn set_signature(&mut self, block: usize, signature: &[u64])
        requires { (1 ≤ block) × (block * length signature.now ≤ length self.old.signatures.now) × (1 ≤ length signature.now) }
        ensures { Signs self.old self.new (set_words (length signature.now) self.old.signatures.now block signature.now) }
    {
        rows::set_signature(self.signatures, block, signature);
    }

    // Makes the block's signature 0, of so many words.
    pub fn clear_signature(&mut self, words: usize, block: usize)
        requires { (1 ≤ block) × (block * words ≤ length self.old.signatures.now) × (1 ≤ words) }
        ensures { Signs self.old self.new (set_words words self.old.signatures.now block (replicate words 0)) }
    {
        rows::clear_signature(self.signatures, words, block);
    }

    // Stores the count.
    pub fn set_count(&mut self, count: u32)
        requires { PacksIn self.old }
        ensures { Becomes self.old self.new (set (links_in self.old) count_at count) }
    {
        self.links[address::COUNT] = count;
    }

    // Stores the first free node.
    pub fn set_free(&mut self, node: u32)
        requires { PacksIn self.old }
        ensures { Becomes self.old self.new (set (links_in self.old) free_at node) }
    {
        stores::set_free(self.links, node);
    }

    // Stores the block that is next to the block.
    pub fn set_next(&mut self, block: usize, next: u32)
        requires { PacksIn self.old × (block ≤ blocks_in self.old) }
        ensures { Becomes self.old self.new (set (links_in self.old) (next_at block) next) }
    {
        rows::set_next(self.links, block, next);
    }

    // Stores the block's filed word, 1 or 0 as document 01 has it.
    pub fn set_filed(&mut self, block: usize, filed: u32)
        requires { PacksIn self.old × (block ≤ blocks_in self.old) }
        ensures { Becomes self.old self.new (set (links_in self.old) (filed_at block) filed) }
    {
        rows::set_filed(self.links, block, filed);
    }

    // Stores the reference at the place.
    pub fn set_reference(&mut self, place: Place, reference: u32)
        requires { PacksIn self.old × IsPlace (blocks_in self.old) place × (reference < 2 ^ 17) }
        ensures { Becomes self.old self.new (set (links_in self.old) (address_of (blocks_in self.old) place) reference) }
    {
        match place {
            Place::Root => self.links[address::ROOT] = reference,
            Place::Below { node, side } => {
                self.nodes[node - 1] = nodes::with_side(self.nodes[node - 1], side, reference);
            }
        }
    }

    // Stores the node: the position that it tests, what is on a side of it, and what is on the other.
    pub fn set_node(&mut self, node: usize, position: u32, side: Side, here: u32, there: u32)
        requires node_inside { PacksIn self.old × (1 ≤ node) × (node < blocks_in self.old) }
        requires parts_fit { (position < 2 ^ 30) × (here < 2 ^ 17) × (there < 2 ^ 17) }
        ensures { Becomes self.old self.new (stores (links_in self.old) (node_stores (blocks_in self.old) node position (side_number side) here there)) }
    {
        nodes::set_node(
            self.nodes,
            node,
            Parts::by_side(position, side, here, there),
        );
    }
}

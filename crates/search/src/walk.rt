// The walk of a search: from a reference down, right only where the query has a 1. It is safe on any tables that fit, and ends on them:
// untested positions and nodes left fall at each call, blocks left at each block of a chain.
ghost use Rattle.std.specs.Prelude.{◌≡◌, true, false, ◌*◌, ◌^◌, ◌≤◌, ◌<◌, eqb, length};
ghost use Rattle.model.specs.Limits.{word_bits};
ghost use Rattle.model.specs.Wide.{word_count};
ghost use Rattle.model.specs.Signature.{coversb};
ghost use Rattle.model.specs.Tables.{width_of, root_of, signature_of};
ghost use Rattle.model.specs.Packed.{position_in};
ghost use Rattle.tables.specs.Held.{signatures_held, blocks_held};
ghost use Rattle.search.specs.Budget.{Forking};
ghost use Rattle.search.specs.Marks.{SameLoan};
ghost use Rattle.search.specs.Search.{may_mark, side_at, index_of, is_leaf, word_at};

use crate::budget::Budget;
use crate::marking::Marks;
use crate::sought::Sought;
use tables::Tables;

// A query of tables: its bits, which fit the tables' width. The width stands beside them, so that a step reads it at once.
#[derive(Drop)]
pub struct Query<'a, Q: Sought> {
    pub tables: Tables<'a>,
    pub bits: Q,
    pub width: u32,
    pub ghost width_read: { width ≡ width_of tables.rows.links.now },
    pub ghost wide: { Q.places bits ≡ word_bits * word_count (width_of tables.rows.links.now) },
    pub ghost low: { Q.number bits < 2 ^ width_of tables.rows.links.now },
}

// The index of a leaf's signature; for reference 0 one that no slice has. It stays a number, and no `Option`: one comparison with the
// number of blocks tells a leaf from a node and from no reference.
fn index_of(reference: u32) -> usize
    ensures { result ≡ index_of reference }
{
    (reference as usize).wrapping_sub(1)
}

impl<'a, Q: Sought> Query<'a, Q> {
    ghost use Rattle.search.specs.Queries.{chain_in, leaf_in, word_in, walk_in};

    // The query of bits that fit.
    pub fn of(tables: Tables<'a>, bits: Q) -> Query<'a, Q>
        requires { (Q.places bits ≡ word_bits * word_count (width_of tables.rows.links.now)) × (Q.number bits < 2 ^ width_of tables.rows.links.now) }
        ensures { (result.tables ≡ tables.entry) × (result.bits ≡ bits) }
    {
        Query {
            tables,
            bits,
            width: tables.rows.width(),
        }
    }

    // May the block be marked? It is 1 to B, filed, not yet marked, and its signature covers the query.
    fn may_mark(&self, marks: &Marks, block: usize) -> bool
        requires { blocks_held self.now.tables ≤ length marks.now.bytes.now }
        ensures { result ≡ may_mark (signatures_held self.now.tables) self.now.tables.rows.links.now (Q.number self.now.bits) block marks.now.bytes.now }
    {
        let rows = &self.tables.rows;
        block != 0
            && block <= rows.blocks()
            && rows.filed_of(block) != 0
            && !marks.is_marked(block)
            && self.bits.is_covered(rows, block)
    }

    // Marks the blocks of the chain from its head on. (Over the blocks that may be marked, a `for` would ask twice whether the chain has
    // ended; `successors` would read a block's next word before the block is known to be one.)
    fn mark_chain(&self, marks: &mut Marks, head: u32, left: Budget) -> Budget
        requires { blocks_held self.now.tables ≤ length marks.old.bytes.now }
        ensures loan { SameLoan marks.new.bytes marks.old.bytes }
        ensures gives { (result, marks.new.bytes.now) ≡ chain_in self.now.tables (Q.number self.now.bits) head left marks.old.bytes.now }
    {
        let mut block = head as usize;
        let mut rest = left;
        while block != 0 {
            if rest.blocks() == 0 || !self.may_mark(marks, block) {
                return Budget::unfit();
            }
            let next = self.tables.rows.next_of(block);
            marks.mark(block);
            rest = rest.take_block();
            block = next as usize;
        }
        rest
    }

    // Marks the chain of a head that is a block of the tables and covers the query: the head is not compared again.
    fn mark_leaf(&self, marks: &mut Marks, head: u32, left: Budget) -> Budget
        requires room { blocks_held self.now.tables ≤ length marks.old.bytes.now }
        requires le_head { (1 ≤ head) × (head ≤ blocks_held self.now.tables) × (coversb (width_of self.now.tables.rows.links.now) (signature_of (signatures_held self.now.tables) head) (Q.number self.now.bits) ≡ true) }
        ensures loan { SameLoan marks.new.bytes marks.old.bytes }
        ensures gives { (result, marks.new.bytes.now) ≡ chain_in self.now.tables (Q.number self.now.bits) head left marks.old.bytes.now }
    {
        let top = head as usize;
        if left.blocks() == 0 || self.tables.rows.filed_of(top) == 0 || marks.is_marked(top) {
            return Budget::unfit();
        }
        let next = self.tables.rows.next_of(top);
        marks.mark(top);
        self.mark_chain(marks, next, left.take_block())
    }

    // A leaf of the tables is one compare; its chain is marked where its signature covers the query. It is inlined for speed: for many words
    // it would stay a call, and a search would take up to a fifth longer.
    #[inline(always)]
    fn leaf(&self, marks: &mut Marks, head: u32, left: Budget) -> Budget
        requires room { blocks_held self.now.tables ≤ length marks.old.bytes.now }
        requires le_head { (1 ≤ head) × (head ≤ blocks_held self.now.tables) }
        ensures loan { SameLoan marks.new.bytes marks.old.bytes }
        ensures gives { (result, marks.new.bytes.now) ≡ leaf_in self.now.tables (Q.number self.now.bits) head left marks.old.bytes.now }
    {
        if !self.bits.is_covered(&self.tables.rows, head as usize) {
            return left;
        }
        self.mark_leaf(marks, head, left)
    }

    // Is the reference a leaf?
    fn is_leaf(&self, reference: u32) -> bool
        ensures { result ≡ is_leaf (blocks_held self.now.tables) reference }
    {
        index_of(reference) < self.tables.rows.blocks()
    }

    // The word of the node that the reference, which is no leaf, leads to. Where there is no such node, 0: its sides are none. (No `None`:
    // no plainer, since a walk of 0 gives up by itself, and each side would have to be asked.)
    fn word_at(&self, reference: u32) -> u64
        requires { is_leaf (blocks_held self.now.tables) reference ≡ false }
        ensures { result ≡ word_at (blocks_held self.now.tables) self.now.tables.nodes.now reference }
    {
        let nodes = self.tables.nodes;
        let at = index_of(reference) - self.tables.rows.blocks();
        if nodes.len() <= at {
            return 0;
        }
        nodes[at]
    }

    // Does the query go right only at a node of this word?
    fn goes_right(&self, word: u64) -> bool
        ensures { result ≡ eqb (side_at (width_of self.now.tables.rows.links.now) (Q.number self.now.bits) (position_in word)) 1 }
    {
        self.bits
            .goes_right(self.width, tables::nodes::position_in(word))
    }

    // The subtree at a node of this word: the sides that the query visits. It calls itself on each side that is a node; a leaf is told
    // before the call and costs none, and it is compared before the other side is walked. Where both sides are nodes, the right one's word
    // is read before the left one is walked, so that memory has it at hand by then. What a call is handed fits the registers, so that the
    // last call is a jump.
    fn walk(&self, marks: &mut Marks, word: u64, untested: u32, left: Budget) -> Budget
        requires room { blocks_held self.now.tables ≤ length marks.old.bytes.now }
        requires forking { Forking left }
        ensures loan { SameLoan marks.new.bytes marks.old.bytes }
        ensures gives { (result, marks.new.bytes.now) ≡ word_in self.now.tables (Q.number self.now.bits) untested word left marks.old.bytes.now }
    {
        if untested == 0 || left.nodes() == 0 {
            return Budget::unfit();
        }
        let first = tables::nodes::left_in(word);
        let second = tables::nodes::right_in(word);
        if self.goes_right(word) {
            let rest = left.take_node();
            if self.is_leaf(second) {
                return self.leaf(marks, second, rest);
            }
            let side = self.word_at(second);
            return self.walk(marks, side, untested - 1, rest);
        }
        let below = left.take_fork();
        if self.is_leaf(first) {
            let rest = self.leaf(marks, first, below);
            if self.is_leaf(second) {
                return self.leaf(marks, second, rest);
            }
            let side = self.word_at(second);
            return self.walk(marks, side, untested - 1, rest);
        }
        let side = self.word_at(first);
        if self.is_leaf(second) {
            let rest = self.leaf(marks, second, below);
            return self.walk(marks, side, untested - 1, rest);
        }
        let other = self.word_at(second);
        let rest = self.walk(marks, side, untested - 1, below);
        self.walk(marks, other, untested - 1, rest)
    }

    // The whole tree, from its root, which is a reference. At the root every position is untested, as many as the width.
    pub fn walk_tree(&self, marks: &mut Marks, left: Budget) -> Budget
        requires room { blocks_held self.now.tables ≤ length marks.old.bytes.now }
        requires rooted { (1 ≤ root_of self.now.tables.rows.links.now) × Forking left }
        ensures loan { SameLoan marks.new.bytes marks.old.bytes }
        ensures gives { (result, marks.new.bytes.now) ≡ walk_in self.now.tables (Q.number self.now.bits) left marks.old.bytes.now }
    {
        let root = self.tables.rows.root();
        if self.is_leaf(root) {
            return self.leaf(marks, root, left);
        }
        let word = self.word_at(root);
        self.walk(marks, word, self.width, left)
    }
}

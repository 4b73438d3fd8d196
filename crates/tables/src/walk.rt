// The walk by a signature's bits, from the root to a reference that is no node. Ends on any tables: it passes at most as many nodes as
// there are positions.
ghost use Rattle.std.specs.Prelude.{ℕ, List, ◌≤◌, ◌<◌, ◌≡◌, ◌≢◌, ◌-◌, length, get_or, IfSome};
ghost use Rattle.model.specs.Limits.{widest, most_blocks};
ghost use Rattle.model.specs.Wide.{word_count, number_in};
ghost use Rattle.model.specs.Tables.{width_of};
ghost use Rattle.model.specs.Packed.{position_in, unpacked, Packs};
ghost use Rattle.tables.specs.Held.{blocks_held, held};
ghost use Rattle.tables.specs.Sides.{edge_number};
ghost use Rattle.tables.specs.Places.{address_of, IsPlace};
ghost use Rattle.tables.specs.Walk.{EdgeIn, Ends, HeldBy, below_at};
ghost use Rattle.tables.specs.Walked.{IsInside, Walks, link_of, above_of, reference_of, parent_of};

use crate::packed::Tables;
use crate::place::Place;
use crate::side::Side;
use crate::{address, nodes};
use signature::{Position, Positions};

// A node, and where the reference to it stands.
#[derive(Clone, Copy, Debug, PartialEq, Eq)]
pub struct Parent {
    pub place: Place,
    pub node: usize,
}

// Where a walk ends: the place of the reference reached, and the reference; and the node that it came from, if it passed any.
#[derive(Clone, Copy, Debug, PartialEq, Eq)]
pub struct Walked {
    pub place: Place,
    pub reference: u32,
    pub parent: Option<Parent>,
}

// The side of the node of this word that the signature takes, where the node's position is one.
pub fn edge_in<S: Positions>(word: u64, width: u32, signature: S) -> Option<Side>
    requires { (width ≤ widest) × (width ≤ S.places signature) }
    ensures { EdgeIn width word (S.number signature) (edge_number result) }
{
    let position = Position::of(width, nodes::position_in(word))?;
    Some(signature.is_set(position).into())
}

// The place that the signature takes below the node, or the root below none, which is 0 as in the walk's loop.
fn place_below<S: Positions>(nodes: &[u64], width: u32, signature: S, node: usize) -> Place
    requires { (node ≤ length nodes.now) × (width ≤ widest) × (width ≤ S.places signature) × (node ≢ 0 → (1 ≤ position_in (get_or nodes.now (node - 1) 0)) × (position_in (get_or nodes.now (node - 1) 0) ≤ width)) }
    ensures address { (B : ℕ) (links : List ℕ) → Packs B links nodes.now → address_of B result ≡ below_at B width (unpacked links nodes.now) (S.number signature) node }
    ensures inside { (B : ℕ) → node < B → IsPlace B result }
{
    if node == 0 {
        return Place::Root;
    }
    let position = Position {
        width,
        number: nodes::position_in(nodes::word_of(nodes, node)),
    };
    let side = signature.is_set(position).into();
    Place::Below { node, side }
}

// Walks from the root, on bare slices, at a width of its own; none where it meets an unfit node. The loop keeps the numbers of the last two
// nodes, 0 for none: it takes a tenth longer where it keeps their places. Inlined, so that no result goes through memory.
#[inline(always)]
pub fn walk<S: Positions>(
    links: &[u32],
    nodes: &[u64],
    blocks: usize,
    width: u32,
    signature: S,
) -> Option<Walked>
    requires { (blocks ≤ most_blocks) × (width ≤ widest) × (width ≤ S.places signature) × Packs blocks links.now nodes.now }
    ensures ends { Ends blocks width (unpacked links.now nodes.now) (S.number signature) (link_of blocks result) (above_of blocks result) }
    ensures taken { link_of blocks result ≢ 0 → link_of blocks result ≡ below_at blocks width (unpacked links.now nodes.now) (S.number signature) (parent_of result) }
    ensures inside { IfSome result (IsInside blocks) }
    ensures held { HeldBy blocks (unpacked links.now nodes.now) (link_of blocks result) (above_of blocks result) (reference_of result) (parent_of result) }
{
    let mut reference = links[address::ROOT];
    let mut node = 0;
    let mut above = 0;
    for _ in 0..width {
        let at = reference as usize;
        if at <= blocks {
            break;
        }
        let next = at - blocks;
        if blocks <= next {
            return None;
        }
        let word = nodes::word_of(nodes, next);
        let side = edge_in(word, width, signature)?;
        reference = nodes::side_in(word, side);
        above = node;
        node = next;
    }
    if node == 0 {
        return Some(Walked {
            place: Place::Root,
            reference,
            parent: None,
        });
    }
    Some(Walked {
        place: place_below(nodes, width, signature, node),
        reference,
        parent: Some(Parent {
            place: place_below(nodes, width, signature, above),
            node,
        }),
    })
}

impl Tables<'_> {
    // The same at the tables' own width. One word is handed on by itself: it stays in a register.
    #[inline(always)]
    pub fn walk(&self, signature: &[u64]) -> Option<Walked>
        requires { length signature.now ≡ word_count (width_of self.now.rows.links.now) }
        ensures { Walks (blocks_held self.now) (width_of self.now.rows.links.now) (held self.now) (number_in signature.now) result }
    {
        let rows = self.rows;
        let blocks = rows.blocks();
        let width = rows.width();
        if let [word] = signature {
            return walk(rows.links, self.nodes, blocks, width, *word);
        }
        walk(rows.links, self.nodes, blocks, width, signature)
    }
}

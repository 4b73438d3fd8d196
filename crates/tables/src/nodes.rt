// The word of a node, 1 to B - 1: position times 2^34, plus left times 2^17, plus right. The only place in code that knows it.
// Nodes are words in a slice, and references are indices: document 01 lays the tables out so, in memory that the caller lends. A reference
// is one of its words: 0 for none, a block for its leaf, B more than its number for a node. The three are told apart where they are met, by
// a comparison with B, and one with 0 where none is no leaf: an enum would be matched by what is compared now, with arms alike wherever two of
// the three go the same way. A node's number, and a reference below 2^17, have their bounds in clauses: types for them, handed on, would
// need clauses again, that they are of these tables.
ghost use Rattle.std.specs.Prelude.{◌≡◌, ◌+◌, ◌-◌, ◌^◌, ◌≤◌, ◌<◌, length, get_or, set};
ghost use Rattle.model.specs.Packed.{node_word, position_in, left_in, right_in, part_in, with_part};
ghost use Rattle.tables.specs.Nodes.{sides_word};
ghost use Rattle.tables.specs.Parts.{IsParts, FitsWord, by_side};
ghost use Rattle.tables.specs.Sides.{side_number};

use crate::side::Side;

// the first number that no side of a node holds
pub const TOO_LARGE: u32 = 131072;

// what a left reference and a position are counted in
const LEFT: u64 = TOO_LARGE as u64;

const POSITION: u64 = LEFT * LEFT;

// The word of the node.
pub fn word_of(nodes: &[u64], node: usize) -> u64
    requires { (1 ≤ node) × (node ≤ length nodes.now) }
    ensures { result ≡ get_or nodes.now (node - 1) 0 }
{
    nodes[node - 1]
}

// The position that the node of this word tests.
pub fn position_in(word: u64) -> u32
    ensures { result ≡ position_in word }
{
    (word / POSITION) as u32
}

// Its left reference.
pub fn left_in(word: u64) -> u32
    ensures { result ≡ left_in word }
{
    (word / LEFT % LEFT) as u32
}

// Its right reference.
pub fn right_in(word: u64) -> u32
    ensures { result ≡ right_in word }
{
    (word % LEFT) as u32
}

// What a node says: the position that it tests, and its two references.
#[derive(Clone, Copy, Debug, PartialEq, Eq)]
pub struct Parts {
    pub position: u32,
    pub left: u32,
    pub right: u32,
}

impl From<u64> for Parts {
    ghost from_gives = { IsParts };

    fn from(word: u64) -> Parts {
        Parts {
            position: position_in(word),
            left: left_in(word),
            right: right_in(word),
        }
    }
}

impl Parts {
    // What is on a side, and what is on the other.
    pub fn by_side(position: u32, side: Side, here: u32, there: u32) -> Parts
        ensures { result ≡ by_side position side here there }
    {
        match side {
            Side::Left => Parts {
                position,
                left: here,
                right: there,
            },
            Side::Right => Parts {
                position,
                left: there,
                right: here,
            },
        }
    }
}

// The word of these parts. (No `From`: parts of the other form may be too large for a word, and `From` asks nothing.)
pub fn join(parts: Parts) -> u64
    requires { FitsWord parts }
    ensures { result ≡ node_word parts.position parts.left parts.right }
{
    u64::from(parts.position) * POSITION + u64::from(parts.left) * LEFT + u64::from(parts.right)
}

// The reference on the side.
pub fn side_in(word: u64, side: Side) -> u32
    ensures { result ≡ part_in word (1 + side_number side) }
{
    match side {
        Side::Left => left_in(word),
        Side::Right => right_in(word),
    }
}

// The word with one part changed: 0 is the position, 1 the left, any other the right, as document 01's addresses leave them when divided by
// three.
pub fn with_part(word: u64, part: usize, value: u32) -> u64
    requires { value < 2 ^ 17 }
    ensures { result ≡ with_part word part value }
{
    let old = Parts::from(word);
    join(match part {
        0 => Parts {
            position: value,
            ..old
        },
        1 => Parts { left: value, ..old },
        _ => Parts {
            right: value,
            ..old
        },
    })
}

// The word with another reference on the side.
pub fn with_side(word: u64, side: Side, reference: u32) -> u64
    requires { reference < 2 ^ 17 }
    ensures { result ≡ with_part word (1 + side_number side) reference }
{
    match side {
        Side::Left => with_part(word, 1, reference),
        Side::Right => with_part(word, 2, reference),
    }
}

// Sets the whole word of the node.
pub fn set_node(nodes: &mut [u64], node: usize, parts: Parts)
    requires le_node { (1 ≤ node) × (node ≤ length nodes.old) }
    requires parts_fit { FitsWord parts }
    ensures { nodes.new ≡ set nodes.old (node - 1) (node_word parts.position parts.left parts.right) }
{
    nodes[node - 1] = join(parts);
}

// The same by document 01's number of a side, of which 0 is the left and any other the right, for a caller who has the number: the side
// becomes `here`, the other `there`.
pub fn set_sides(nodes: &mut [u64], node: usize, position: u32, side: u32, here: u32, there: u32)
    requires le_node { (1 ≤ node) × (node ≤ length nodes.old) }
    requires position_bound { (position < 2 ^ 30) × (here < 2 ^ 17) × (there < 2 ^ 17) }
    ensures { nodes.new ≡ set nodes.old (node - 1) (sides_word position side here there) }
{
    let side = Side::from(side != 0);
    set_node(nodes, node, Parts::by_side(position, side, here, there));
}

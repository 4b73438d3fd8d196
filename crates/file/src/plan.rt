// What a filing stores, read off the tables and checked before any store: so 11 changes nothing.
ghost use Rattle.std.specs.Prelude.{◌^◌, ◌≤◌, ◌<◌, ◌≡◌, length};
ghost use Rattle.model.specs.Wide.{word_count, number_in};
ghost use Rattle.model.specs.Tables.{width_of, count_of};
ghost use Rattle.tables.specs.Places.{IsPlace};
ghost use Rattle.tables.specs.Held.{signatures_held, blocks_held, held};
ghost use Rattle.file.specs.Asking.{Passed};
ghost use Rattle.file.specs.Plan.{PlanFits, SplitPlan, Plans};

use signature::Positions;
use tables::{Place, Side, Tables, front};

// The first leaf; the block after the head of a chain; or a new node.
#[derive(Clone, Copy, Debug, PartialEq, Eq)]
pub enum Plan {
    First,
    Join { head: u32 },
    Split(NewNode),
}

// The first free node in the place of a leaf, with the position that it tests and the side of it that the block goes to.
#[derive(Clone, Copy, Debug, PartialEq, Eq)]
pub struct NewNode {
    pub node: u32,
    pub place: Place,
    pub leaf: u32,
    pub position: u32,
    pub side: Side,
}

// The first free node in the place of a leaf whose signature is another one. None for unfit tables.
#[inline(always)]
fn plan_split(
    tables: &Tables,
    signature: &[u64],
    place: Place,
    leaf: u32,
    other: &[u64],
) -> Option<Plan>
    requires long { (length signature.now ≡ word_count (width_of (held tables.now))) × (length other.now ≡ word_count (width_of (held tables.now))) }
    requires differ { (number_in signature.now < 2 ^ width_of (held tables.now)) × (number_in other.now ≡ number_in signature.now → ⊥) }
    requires inside { (count_of (held tables.now) < blocks_held tables.now) × IsPlace (blocks_held tables.now) place × (leaf ≤ blocks_held tables.now) }
    ensures splits { SplitPlan (blocks_held tables.now) (width_of (held tables.now)) (held tables.now) (number_in signature.now) place leaf (number_in other.now) result }
    ensures within { PlanFits (blocks_held tables.now) (held tables.now) result }
{
    let rows = tables.rows;
    let width = rows.width();
    let node = rows.first_free();
    // a node is 1 to B - 1, as a block is 1 to B
    if !front::is_block(node, rows.blocks() - 1) || !signature::fits(other, width) {
        return None;
    }
    let position = signature::first_difference(signature, other, width);
    let side = signature.is_set(position).into();
    Some(Plan::Split(NewNode {
        node,
        place,
        leaf,
        position: position.number,
        side,
    }))
}

// The plan of a filing that no question refuses. None for unfit tables.
#[inline(always)]
pub fn plan_filing(tables: &Tables, block: u32, signature: &[u64]) -> Option<Plan>
    requires { Passed (blocks_held tables.now) (held tables.now) block signature.now }
    ensures plans { Plans (signatures_held tables.now) (held tables.now) block (number_in signature.now) result }
    ensures within { PlanFits (blocks_held tables.now) (held tables.now) result }
{
    let rows = tables.rows;
    let blocks = rows.blocks();
    if blocks <= rows.count() as usize {
        return None;
    }
    if rows.root() == 0 {
        return Some(Plan::First);
    }
    let walked = tables.walk(signature)?;
    let leaf = walked.reference;
    if !front::is_block(leaf, blocks) {
        return None;
    }
    let other = rows.signature_of(leaf as usize);
    if signature::same(other, signature) {
        return Some(Plan::Join { head: leaf });
    }
    plan_split(tables, signature, walked.place, leaf, other)
}

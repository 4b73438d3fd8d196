// What a withdrawal stores, read and checked before any store: so a refusal changes nothing.
ghost use Rattle.std.specs.Prelude.{◌≡◌, ℕ, ◌+◌, ◌^◌, ◌≤◌, ◌<◌, Some, IfSome};
ghost use Rattle.model.specs.Signature.{bit_at};
ghost use Rattle.model.specs.Tables.{word, free_of, count_of, next_of, position_of};
ghost use Rattle.tables.specs.Places.{address_of};
ghost use Rattle.tables.specs.Sides.{side_number};
ghost use Rattle.tables.specs.Walk.{HeldBy, below_at};
ghost use Rattle.tables.specs.Walked.{parent_at, parent_node, IsParent, IsInside};
ghost use Rattle.tables.specs.Held.{signatures_held, blocks_held, held};
ghost use Rattle.withdraw.specs.Asking.{Passed};
ghost use Rattle.withdraw.specs.Plan.{PlanFits, IsBefore, PlansChain, PlansRaise, PlansHead, PlansRight};

use tables::nodes::{self, TOO_LARGE};
use tables::walk::{Parent, Walked};
use tables::{Place, Side, Tables, front};

// What is stored besides the block's row and the count.
#[derive(Clone, Copy, Debug, PartialEq, Eq)]
pub enum Plan {
    // the block before it leads on past it
    Unlink { before: u32, next: u32 },
    // the next block, or nothing at the root, becomes the reference there
    Lead { place: Place, next: u32 },
    // the sibling takes the place of its parent, which becomes free
    Raise(FreedNode),
}

// The parent of the block's leaf, where the reference to it stands, and what is on its other side; and the first free node so far, to which
// it will lead.
#[derive(Clone, Copy, Debug, PartialEq, Eq)]
pub struct FreedNode {
    pub node: usize,
    pub above: Place,
    pub sibling: u32,
    pub free: u32,
}

// The block before `block` on the chain from `head`. None where it is not met within as many blocks as there are.
fn find_before(tables: &Tables, block: u32, head: u32) -> Option<u32>
    requires { (1 ≤ head) × (head ≤ blocks_held tables.now) }
    ensures chain { IsBefore (blocks_held tables.now) (held tables.now) block head result }
    ensures inside { IfSome result (λ before. (1 ≤ before) × (before ≤ blocks_held tables.now)) }
{
    let rows = tables.rows;
    let blocks = rows.blocks();
    let mut before = head;
    for _ in 0..blocks {
        let next = rows.next_of(before as usize);
        if next == block {
            return Some(before);
        }
        if !front::is_block(next, blocks) {
            return None;
        }
        before = next;
    }
    None
}

// The block stands on the chain from `head`, after it: the block before it leads on past it.
#[inline(always)]
fn plan_chain(tables: &Tables, block: u32, head: u32) -> Option<Plan>
    requires { (1 ≤ block) × (block ≤ blocks_held tables.now) × (1 ≤ count_of (held tables.now)) × (next_of (held tables.now) block < 2 ^ 17) }
    ensures right { PlansChain (blocks_held tables.now) (held tables.now) block head result }
    ensures within { PlanFits (blocks_held tables.now) (held tables.now) result }
{
    let rows = tables.rows;
    if !front::is_block(head, rows.blocks()) {
        return None;
    }
    let before = find_before(tables, block, head)?;
    let next = rows.next_of(block as usize);
    Some(Plan::Unlink { before, next })
}

// The sibling takes the place of the parent, on whose side the block's leaf is.
fn plan_raise(tables: &Tables, parent: Parent, side: Side) -> Plan
    requires fits { (1 ≤ count_of (held tables.now)) × (free_of (held tables.now) < 2 ^ 17) }
    requires holds { IsParent (blocks_held tables.now) parent × (word (held tables.now) (address_of (blocks_held tables.now) parent.place) ≡ blocks_held tables.now + parent.node) }
    ensures right { (F b s : ℕ) → side_number side ≡ bit_at F s (position_of (blocks_held tables.now) (held tables.now) parent.node) → PlansRaise (blocks_held tables.now) F (held tables.now) b s (address_of (blocks_held tables.now) parent.place) (Some result) }
    ensures within { PlanFits (blocks_held tables.now) (held tables.now) (Some result) }
{
    let word = nodes::word_of(tables.nodes, parent.node);
    Plan::Raise(FreedNode {
        node: parent.node,
        above: parent.place,
        sibling: nodes::side_in(word, side.other()),
        free: tables.rows.first_free(),
    })
}

// The block is the head of the chain that the walk has come to.
fn plan_head(tables: &Tables, block: u32, walked: Walked) -> Plan
    requires fits { (1 ≤ count_of (held tables.now)) × (free_of (held tables.now) < 2 ^ 17) × (next_of (held tables.now) block < 2 ^ 17) }
    requires le_block { (1 ≤ block) × (block ≤ blocks_held tables.now) }
    requires inside { IsInside (blocks_held tables.now) walked }
    requires holds { HeldBy (blocks_held tables.now) (held tables.now) (address_of (blocks_held tables.now) walked.place) (parent_at (blocks_held tables.now) walked.parent) walked.reference (parent_node walked.parent) }
    ensures right { (F s : ℕ) → address_of (blocks_held tables.now) walked.place ≡ below_at (blocks_held tables.now) F (held tables.now) s (parent_node walked.parent) → PlansHead (blocks_held tables.now) F (held tables.now) block s (address_of (blocks_held tables.now) walked.place) (parent_at (blocks_held tables.now) walked.parent) (Some result) }
    ensures within { PlanFits (blocks_held tables.now) (held tables.now) (Some result) }
{
    let next = tables.rows.next_of(block as usize);
    if next != 0 {
        return Plan::Lead {
            place: walked.place,
            next,
        };
    }
    match (walked.parent, walked.place) {
        (Some(parent), Place::Below { node: _, side }) => plan_raise(tables, parent, side),
        _ => Plan::Lead {
            place: Place::Root,
            next: 0,
        },
    }
}

// The whole plan: walks by the block's own signature to its chain. None for unfit tables.
#[inline(always)]
pub fn plan_block(tables: &Tables, block: u32) -> Option<Plan>
    requires { Passed (blocks_held tables.now) (held tables.now) block }
    ensures right { PlansRight (signatures_held tables.now) (held tables.now) block result }
    ensures within { PlanFits (blocks_held tables.now) (held tables.now) result }
{
    let rows = tables.rows;
    if rows.count() == 0 {
        return None;
    }
    // what may be stored in a node has to fit it
    if TOO_LARGE <= rows.first_free() || TOO_LARGE <= rows.next_of(block as usize) {
        return None;
    }
    let signature = rows.signature_of(block as usize);
    let walked = tables.walk(signature)?;
    if walked.reference == block {
        return Some(plan_head(tables, block, walked));
    }
    plan_chain(tables, block, walked.reference)
}

// The stores of a filing, in the definition's order: one function for each kind of plan. What each asks stands in one definition: no type
// of lent tables can hold it, since a ghost field beside a `&mut` is not covered by the check.
ghost use Rattle.std.specs.Prelude.{◌≤◌, ◌<◌, [], ◌∷◌, Some};
ghost use Rattle.model.specs.Limits.{widest};
ghost use Rattle.model.specs.Tables.{next_at};
ghost use Rattle.model.specs.Stores.{◌↤◌, stores};
ghost use Rattle.model.specs.File.{filing_stores, first_stores, chain_stores, split_stores};
ghost use Rattle.tables.specs.Changed.{links_in, blocks_in, PacksIn, Becomes};
ghost use Rattle.tables.specs.Places.{address_of, IsPlace};
ghost use Rattle.tables.specs.Sides.{side_number};
ghost use Rattle.file.specs.Plan.{PlanFits, plan_stores};
ghost use Rattle.file.specs.Storing.{CanFile};

use crate::plan::{NewNode, Plan};
use tables::{Place, TablesMut};

// The block's row and the count: the stores of every filing.
fn store_row(tables: &mut TablesMut, block: u32, next: u32)
    requires { CanFile tables.old block }
    ensures { Becomes tables.old tables.new (stores (links_in tables.old) (filing_stores (links_in tables.old) block ((next_at block ↤ next) ∷ []))) }
{
    let block = block as usize;
    let count = tables.count();
    tables.set_filed(block, 1);
    tables.set_count(count + 1);
    tables.set_next(block, next);
}

// The root becomes the leaf.
fn store_first(tables: &mut TablesMut, block: u32)
    requires { CanFile tables.old block }
    ensures { Becomes tables.old tables.new (stores (links_in tables.old) (first_stores (links_in tables.old) block)) }
{
    store_row(tables, block, 0);
    tables.set_reference(Place::Root, block);
}

// The block goes directly after the head in its chain.
fn store_join(tables: &mut TablesMut, block: u32, head: u32)
    requires { CanFile tables.old block × (head ≤ blocks_in tables.old) }
    ensures { Becomes tables.old tables.new (stores (links_in tables.old) (chain_stores (links_in tables.old) block head)) }
{
    let next = tables.next_of(head as usize);
    store_row(tables, block, next);
    tables.set_next(head as usize, block);
}

// The first free node takes the leaf's place: the block goes to its side, the leaf to the other. Inlined, so that the plan's parts stay in
// registers.
#[inline(always)]
fn store_split(tables: &mut TablesMut, block: u32, new: NewNode)
    requires can_file { CanFile tables.old block }
    requires inside { IsPlace (blocks_in tables.old) new.place × (1 ≤ new.node) × (new.node < blocks_in tables.old) × (new.leaf ≤ blocks_in tables.old) × (new.position ≤ widest) }
    ensures { Becomes tables.old tables.new (stores (links_in tables.old) (split_stores (blocks_in tables.old) (links_in tables.old) block (address_of (blocks_in tables.old) new.place) new.leaf new.node new.position (side_number new.side))) }
{
    let NewNode {
        node,
        place,
        leaf,
        position,
        side,
    } = new;
    let blocks = tables.blocks() as u32;
    let free = tables.left_of(node as usize);
    store_row(tables, block, 0);
    tables.set_free(free);
    tables.set_node(node as usize, position, side, block, leaf);
    tables.set_reference(place, blocks + node);
}

// Makes the stores of a plan.
#[inline(always)]
pub fn carry_out(tables: &mut TablesMut, block: u32, plan: Plan)
    requires packs { PacksIn tables.old × (1 ≤ block) × (block ≤ blocks_in tables.old) }
    requires plan_fits { PlanFits (blocks_in tables.old) (links_in tables.old) (Some plan) }
    ensures { Becomes tables.old tables.new (stores (links_in tables.old) (plan_stores (blocks_in tables.old) (links_in tables.old) block (Some plan))) }
{
    match plan {
        Plan::First => store_first(tables, block),
        Plan::Join { head } => store_join(tables, block, head),
        Plan::Split(new) => store_split(tables, block, new),
    }
}

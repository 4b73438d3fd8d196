// The stores of a withdrawal, in the definition's order: one function for each kind of plan. What each asks stands in one definition: no
// type of lent tables can hold it, since a ghost field beside a `&mut` is not covered by the check.
ghost use Rattle.std.specs.Prelude.{◌≡◌, [], ◌∷◌, ◌^◌, ◌≤◌, ◌<◌, Some};
ghost use Rattle.model.specs.Tables.{free_of, next_at};
ghost use Rattle.model.specs.Stores.{stores, ◌↤◌};
ghost use Rattle.model.specs.Withdraw.{withdrawal_stores, raise_stores};
ghost use Rattle.tables.specs.Changed.{links_in, blocks_in, PacksIn, Becomes};
ghost use Rattle.tables.specs.Places.{address_of, IsPlace};
ghost use Rattle.withdraw.specs.Plan.{PlanFits, plan_stores};
ghost use Rattle.withdraw.specs.Storing.{CanWithdraw};

use crate::plan::{FreedNode, Plan};
use tables::{Place, Side, TablesMut};

// The block's row becomes 0, and the count falls by one: the stores of every withdrawal.
fn clear_row(tables: &mut TablesMut, block: usize)
    requires { CanWithdraw tables.old block }
    ensures { Becomes tables.old tables.new (stores (links_in tables.old) (withdrawal_stores (links_in tables.old) block [])) }
{
    let count = tables.count();
    tables.set_next(block, 0);
    tables.set_filed(block, 0);
    tables.set_count(count - 1);
}

// The block before leads on past the block.
fn unlink(tables: &mut TablesMut, block: usize, before: u32, next: u32)
    requires { CanWithdraw tables.old block × (before ≤ blocks_in tables.old) }
    ensures { Becomes tables.old tables.new (stores (links_in tables.old) (withdrawal_stores (links_in tables.old) block ((next_at before ↤ next) ∷ []))) }
{
    clear_row(tables, block);
    tables.set_next(before as usize, next);
}

// The next block becomes the reference at the place.
fn lead(tables: &mut TablesMut, block: usize, place: Place, next: u32)
    requires { CanWithdraw tables.old block × IsPlace (blocks_in tables.old) place × (next < 2 ^ 17) }
    ensures { Becomes tables.old tables.new (stores (links_in tables.old) (withdrawal_stores (links_in tables.old) block ((address_of (blocks_in tables.old) place ↤ next) ∷ []))) }
{
    clear_row(tables, block);
    tables.set_reference(place, next);
}

// The sibling takes the place of its parent, which becomes the first free node. Inlined, so that the plan's parts stay in registers.
#[inline(always)]
fn raise(tables: &mut TablesMut, block: usize, freed: FreedNode)
    requires can_withdraw { CanWithdraw tables.old block }
    requires inside { IsPlace (blocks_in tables.old) freed.above × (1 ≤ freed.node) × (freed.node < blocks_in tables.old) × (freed.sibling < 2 ^ 17) × (freed.free < 2 ^ 17) × (freed.free ≡ free_of (links_in tables.old)) }
    ensures { Becomes tables.old tables.new (stores (links_in tables.old) (raise_stores (blocks_in tables.old) (links_in tables.old) block (address_of (blocks_in tables.old) freed.above) freed.node freed.sibling)) }
{
    let FreedNode {
        node,
        above,
        sibling,
        free,
    } = freed;
    clear_row(tables, block);
    tables.set_node(node, 0, Side::Left, free, 0);
    tables.set_free(node as u32);
    tables.set_reference(above, sibling);
}

// Makes the stores of a plan.
#[inline(always)]
pub fn carry_out(tables: &mut TablesMut, block: u32, plan: Plan)
    requires packs { PacksIn tables.old × (1 ≤ block) × (block ≤ blocks_in tables.old) }
    requires plan_fits { PlanFits (blocks_in tables.old) (links_in tables.old) (Some plan) }
    ensures { Becomes tables.old tables.new (stores (links_in tables.old) (plan_stores (blocks_in tables.old) (links_in tables.old) block (Some plan))) }
{
    let block = block as usize;
    match plan {
        Plan::Unlink { before, next } => unlink(tables, block, before, next),
        Plan::Lead { place, next } => lead(tables, block, place, next),
        Plan::Raise(freed) => raise(tables, block, freed),
    }
}

// Free nodes, ascending: each leads to the next by its left reference, and the last to none.
ghost use Rattle.std.specs.Prelude.{◌≡◌, List, ℕ, ◌+◌, ◌-◌, ◌≤◌, length};
ghost use Rattle.std.proofs.lemmas.List.Edits.{sets};
ghost use Rattle.model.specs.Limits.{most_blocks};
ghost use Rattle.model.specs.Tables.{position_at};
ghost use Rattle.model.specs.Clear.{free_from, free_nodes};
ghost use Rattle.model.specs.Packed.{unpacked, Packs};
ghost use Rattle.tables.specs.Parts.{leading_to};

use crate::nodes::{Parts, set_node};

// Node i where there is one, else 0: a word of the tables, in which document 01 has 0 for none.
pub fn free_from(blocks: usize, i: usize) -> u32
    requires { blocks ≤ most_blocks }
    ensures value { result ≡ free_from blocks i }
    ensures upper_bound { result ≤ blocks }
{
    if i < blocks { i as u32 } else { 0 }
}

// A free node that leads to this one.
fn leads_to(next: u32) -> Parts
    ensures { result ≡ leading_to next }
{
    Parts {
        position: 0,
        left: next,
        right: 0,
    }
}

// Makes the nodes from `first` to the last free, beside any links. The last one stands after the loop, which then has no choice in it.
pub fn free_rest(nodes: &mut [u64], blocks: usize, first: usize)
    requires { (1 ≤ first) × (first ≤ blocks) × (blocks ≤ most_blocks) × (length nodes.old + 1 ≡ blocks) }
    ensures { (links : List ℕ) → Packs blocks links nodes.old → unpacked links nodes.new ≡ sets (unpacked links nodes.old) (position_at blocks first) (free_nodes (blocks - first) first) }
{
    let last = blocks - 1;
    for next in first as u32 + 1..blocks as u32 {
        set_node(nodes, next as usize - 1, leads_to(next));
    }
    if first <= last {
        set_node(nodes, last, leads_to(0));
    }
}

// Stores to bare slices: by the word's address among document 01's links, wherever the word lives, in the links or in a part of a node's
// word; and to the word of the first free node. The calls of this repository store by `TablesMut`, which names what it stores.
ghost use Rattle.std.specs.Prelude.{◌≡◌, ◌+◌, ◌^◌, ◌≤◌, ◌<◌, length, set};
ghost use Rattle.model.specs.Limits.{most_blocks};
ghost use Rattle.model.specs.Tables.{links_of, free_at};
ghost use Rattle.model.specs.Packed.{unpacked, Packs};

use crate::{address, nodes};

// Stores a word below 2^17 at the address.
pub fn set_word(links: &mut [u32], nodes: &mut [u64], at: usize, value: u32)
    requires packs { Packs (length nodes.old + 1) links.old nodes.old × (length nodes.old ≤ most_blocks) × (at < links_of (length nodes.old + 1)) }
    requires value_bound { value < 2 ^ 17 }
    ensures words { unpacked links.new nodes.new ≡ set (unpacked links.old nodes.old) at value }
    ensures long { (length links.new ≡ length links.old) × (length nodes.new ≡ length nodes.old) }
{
    if at < links.len() {
        links[at] = value;
        return;
    }
    let beyond = at - links.len();
    let node = beyond / 3;
    nodes[node] = nodes::with_part(nodes[node], beyond % 3, value);
}

// Stores the first free node.
pub fn set_free(links: &mut [u32], node: u32)
    requires { 5 ≤ length links.old }
    ensures { links.new ≡ set links.old free_at node }
{
    links[address::FREE] = node;
}

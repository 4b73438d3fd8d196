// The heads of a tree, left to right: the walk calls itself on each side of a node.
ghost use Rattle.std.specs.Prelude.{◌≡◌, ◌≤◌, length};
ghost use Rattle.std.proofs.lemmas.List.Edits.{sets};
ghost use Rattle.model.specs.Rebuild.{heads_from};
ghost use Rattle.tables.specs.Held.{blocks_held, held};
ghost use Rattle.rebuild.specs.Walkable.{Walkable};

use tables::nodes::Parts;
use tables::{Form, Tables};

// Writes the heads of the chains below a reference, which is 0, a leaf or a node, at the front of the scratch. The result is how many they
// are.
pub(crate) fn collect(tables: &Tables, scratch: &mut [u32], reference: u32, untested: u32) -> usize
    requires walkable { Walkable (blocks_held tables.now) (held tables.now) untested reference }
    requires room { length (heads_from (blocks_held tables.now) (held tables.now) untested reference) ≤ length scratch.old }
    ensures within { result ≤ length scratch.old }
    ensures count { result ≡ length (heads_from (blocks_held tables.now) (held tables.now) untested reference) }
    ensures list { scratch.new ≡ sets scratch.old 0 (heads_from (blocks_held tables.now) (held tables.now) untested reference) }
{
    if reference == 0 {
        return 0;
    }
    let blocks = tables.rows.blocks();
    let at = reference as usize;
    if at <= blocks {
        scratch[0] = reference;
        return 1;
    }
    let Parts { left, right, .. } = tables.node(at - blocks);
    let found = collect(tables, scratch, left, untested - 1);
    found + collect(tables, &mut scratch[found..], right, untested - 1)
}

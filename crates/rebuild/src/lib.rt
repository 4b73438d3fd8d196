// Rebuild: the heads of the tree are collected into the scratch, split into a new tree, and the nodes that it leaves are freed.
#![tactic(auto)]

mod collect;

ghost use Rattle.answers.specs.Answers.{answer_of};
ghost use Rattle.model.specs.PackedPromises.{PackedRebuild};

use answers::Refusal;
use collect::collect;
use tables::{Rows, Tables, address, free};

// Makes the tree anew. Questions 4, 9 and 11 are asked in this order, and a refusal changes nothing. The first words of the scratch, one
// for each block, are free afterwards; later ones are unchanged. The slices come one by one: the face of C lends the signatures to be read
// only.
pub fn rebuild(
    signatures: &[u64],
    links: &mut [u32],
    nodes: &mut [u64],
    scratch: &mut [u32],
) -> Result<(), Refusal>
    ensures { PackedRebuild signatures.now links.old nodes.old scratch.old (answer_of result) links.new nodes.new scratch.new }
{
    let tables = Tables::of(signatures, links, nodes)?;
    let Rows { blocks, words, .. } = tables.rows;
    if scratch.len() < blocks {
        return Err(Refusal::ShortScratch);
    }
    audit::sound(&tables)?;
    let heads = collect(&tables, scratch, tables.rows.root(), tables.rows.width());
    let first = heads.max(1);
    let root = split::reference(heads, scratch[0], blocks + 1);
    let rows = Rows {
        signatures,
        links,
        blocks,
        words,
    };
    split::build(&rows, nodes, &mut scratch[..heads], 1);
    free::free_rest(nodes, blocks, first);
    links[address::ROOT] = root;
    links[address::FREE] = free::free_from(blocks, first);
    Ok(())
}

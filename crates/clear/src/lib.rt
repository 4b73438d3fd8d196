// Clear: the tables of an empty index, for signatures of a width.
#![tactic(auto)]

ghost use Rattle.std.specs.Prelude.{◌≤◌, ◌≡◌, length};
ghost use Rattle.answers.specs.Answers.{answer_of};
ghost use Rattle.model.specs.Limits.{most_blocks};
ghost use Rattle.model.specs.Packed.{rows_of};
ghost use Rattle.model.specs.PackedPromises.{PackedClear};
ghost use Rattle.tables.specs.Changed.{SameLoans};
ghost use Rattle.clear.specs.Cleared.{clear_rows};

use answers::Refusal;
use tables::{TablesMut, address, free, front};

// The links of cleared tables: all words 0 but words 0, 1 and 3.
#[tactic(auto, unfolding(crate::specs::Cleared::clear_rows))]
fn clear_links(links: &mut [u32], blocks: usize, width: u32)
    requires { (1 ≤ blocks) × (blocks ≤ most_blocks) × (length links.old ≡ rows_of blocks) }
    ensures { links.new ≡ clear_rows blocks width }
{
    links.fill(0);
    links[address::WIDTH] = width;
    links[address::BLOCKS] = blocks as u32;
    links[address::FREE] = free::free_from(blocks, 1);
}

// Clears the tables, whatever they were. Question 4 looks at the lengths, B and the width asked for: by it the signatures are lent.
pub fn clear(tables: &mut TablesMut, width: u32) -> Result<(), Refusal>
    ensures promise { PackedClear tables.old.signatures.now tables.old.links.now tables.old.nodes.now width (answer_of result) tables.new.signatures.now tables.new.links.now tables.new.nodes.now }
    ensures loans { SameLoans tables.old tables.new }
{
    if !front::lengths_fit(tables.links.len(), tables.nodes.len()) || !front::width_fits(width) {
        return Err(Refusal::Unfit);
    }
    let blocks = front::packed_blocks(tables.links.len());
    if !front::signatures_fit(tables.signatures.len(), blocks, width) {
        return Err(Refusal::Unfit);
    }
    tables.signatures.fill(0);
    clear_links(tables.links, blocks, width);
    free::free_rest(tables.nodes, blocks, 1);
    Ok(())
}

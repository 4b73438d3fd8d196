// File: a block with its signature into the tables (document 01, "The calls").
#![tactic(auto)]

mod plan;
mod question;
mod store;

ghost use Rattle.answers.specs.Answers.{answer_of};
ghost use Rattle.model.specs.PackedPromises.{PackedFile};
ghost use Rattle.tables.specs.Changed.{SameLoans};

use answers::Refusal;
use tables::TablesMut;

// Files a block under a signature. All is read and checked before the first store, so 11 changes nothing. It is inlined in each caller,
// with its plan and what carries it out: else each store is followed by reading the slices from the struct again, and a filing takes a tenth
// longer.
#[inline(always)]
pub fn file(tables: &mut TablesMut, block: u32, signature: &[u64]) -> Result<(), Refusal>
    ensures promise { PackedFile tables.old.signatures.now tables.old.links.now tables.old.nodes.now block signature.now (answer_of result) tables.new.signatures.now tables.new.links.now tables.new.nodes.now }
    ensures loans { SameLoans tables.old tables.new }
{
    let read = tables.read()?;
    question::ask(&read, block, signature)?;
    let plan = plan::plan_filing(&read, block, signature).ok_or(Refusal::Unsound)?;
    store::carry_out(tables, block, plan);
    tables.set_signature(block as usize, signature);
    Ok(())
}

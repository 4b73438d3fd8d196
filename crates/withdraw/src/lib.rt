// Withdraw: a block out of the tables (document 01, "The calls").
#![tactic(auto)]

mod plan;
mod question;
mod store;

ghost use Rattle.answers.specs.Answers.{answer_of};
ghost use Rattle.model.specs.PackedPromises.{PackedWithdraw};
ghost use Rattle.tables.specs.Changed.{SameLoans};

use answers::Refusal;
use tables::TablesMut;

// Withdraws a filed block. All is read and checked before the first store, so 11 changes nothing. Inlined in each caller as a filing is,
// with its plan and what carries it out.
#[inline(always)]
pub fn withdraw(tables: &mut TablesMut, block: u32) -> Result<(), Refusal>
    ensures promise { PackedWithdraw tables.old.signatures.now tables.old.links.now tables.old.nodes.now block (answer_of result) tables.new.signatures.now tables.new.links.now tables.new.nodes.now }
    ensures loans { SameLoans tables.old tables.new }
{
    let read = tables.read()?;
    question::ask(&read, block)?;
    let plan = plan::plan_block(&read, block).ok_or(Refusal::Unsound)?;
    let words = read.rows.words;
    store::carry_out(tables, block, plan);
    tables.clear_signature(words, block as usize);
    Ok(())
}

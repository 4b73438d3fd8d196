// The questions of a withdrawal after question 4, in order (document 01, "The questions, in order"): the first no decides.
ghost use Rattle.std.specs.Prelude.{◌≡◌, OnOk};
ghost use Rattle.answers.specs.Answers.{answer_of};
ghost use Rattle.model.specs.Questions.{asks_tables, withdraw_refusal};
ghost use Rattle.tables.specs.Held.{blocks_held, held};
ghost use Rattle.withdraw.specs.Asking.{Passed};

use answers::Refusal;
use tables::{Tables, front};

// 5: is the block 1 to B? 8: is it filed?
pub fn ask(tables: &Tables, block: u32) -> Result<(), Refusal>
    ensures number { answer_of result ≡ withdraw_refusal (asks_tables tables.now.rows.signatures.now (held tables.now)) block }
    ensures passed { OnOk result (Passed (blocks_held tables.now) (held tables.now) block) }
{
    let rows = tables.rows;
    if !front::is_block(block, rows.blocks()) {
        return Err(Refusal::NoBlock);
    }
    if rows.filed_of(block as usize) == 0 {
        return Err(Refusal::NotFiled);
    }
    Ok(())
}

// The questions of a filing after those of the tables, in order: the first no decides.
ghost use Rattle.std.specs.Prelude.{◌≡◌, OnOk};
ghost use Rattle.answers.specs.Answers.{answer_of};
ghost use Rattle.model.specs.Questions.{asks_tables, file_refusal};
ghost use Rattle.tables.specs.Held.{blocks_held, held};
ghost use Rattle.file.specs.Asking.{Passed};

use answers::Refusal;
use tables::{Tables, front};

// 4: has the signature W words? 5: is the block 1 to B? 6: is the signature below 2 ^ F? 7: is the block unfiled?
pub fn ask(tables: &Tables, block: u32, signature: &[u64]) -> Result<(), Refusal>
    ensures number { answer_of result ≡ file_refusal (asks_tables tables.now.rows.signatures.now (held tables.now)) block signature.now }
    ensures passed { OnOk result (Passed (blocks_held tables.now) (held tables.now) block signature.now) }
{
    let rows = tables.rows;
    if signature.len() != rows.words {
        return Err(Refusal::Unfit);
    }
    if !front::is_block(block, rows.blocks()) {
        return Err(Refusal::NoBlock);
    }
    if !signature::fits(signature, rows.width()) {
        return Err(Refusal::TooLarge);
    }
    if rows.filed_of(block as usize) != 0 {
        return Err(Refusal::Filed);
    }
    Ok(())
}

// The verdict on tables of which question 4 says yes: the rows, the count, the tree, and what the tree leaves.
ghost use Rattle.std.specs.Prelude.{◌≡◌};
ghost use Rattle.model.specs.Packed.{unpacked};
ghost use Rattle.answers.specs.Answers.{answer_of};
ghost use Rattle.model.specs.Promises.{AuditPromise};
ghost use Rattle.audit.specs.Audit.{soundb};

use super::free::free_chain;
use super::rows::check_rows;
use super::walk::{Lent, whole_tree};
use answers::Refusal;
use tables::Form;

// Question 11 alone, of either form.
pub fn sound<F: Form>(form: &F) -> Result<(), Refusal>
    ensures { AuditPromise (F.words form.now) (unpacked (F.links form.now) (F.nodes form.now)) (answer_of result) }
{
    if is_sound(form) {
        Ok(())
    } else {
        Err(Refusal::Unsound)
    }
}

// Whether tables that fit are sound. The tree is lent all nodes, and as many blocks as are filed: no block may be left over.
fn is_sound<F: Form>(form: &F) -> bool
    ensures { result ≡ soundb (F.signatures form.now) (unpacked (F.links form.now) (F.nodes form.now)) }
{
    let rows = form.rows();
    let Some(filed) = check_rows(&rows) else {
        return false;
    };
    if filed != rows.count() {
        return false;
    }
    let lent = Lent {
        nodes: rows.blocks() as u32 - 1,
        blocks: filed,
    };
    match whole_tree(form, lent) {
        Some(left) => left.blocks == 0 && free_chain(form, left.nodes),
        None => false,
    }
}

// The rows: each signature is narrow, each row is filed or else all 0; and how many are filed.
ghost use Rattle.std.specs.Prelude.{◌≡◌, ◌≤◌, length};
ghost use Rattle.model.specs.Wide.{word_count, number_in};
ghost use Rattle.tables.specs.Rows.{numbers};
ghost use Rattle.audit.specs.Audit.{row_ok, rows_twin};

use tables::Rows;

// One row: the signature is below 2 ^ width, and the block is filed, or else the row and the signature are 0. (The filed word is a number, in
// document 01's tables, and may be any where they are not sound.)
#[tactic(auto, unfolding(crate::specs::Audit::row_ok))]
fn row_fits(signature: &[u64], next: u32, filed: u32, width: u32) -> bool
    requires { (1 ≤ width) × (length signature.now ≡ word_count width) }
    ensures { result ≡ row_ok width (number_in signature.now) next filed }
{
    signature::fits(signature, width)
        && match filed {
            0 => next == 0 && signature::is_zero(signature),
            1 => true,
            _ => false,
        }
}

// All rows: the number of filed blocks, where each row is fit.
pub(crate) fn check_rows(rows: &Rows) -> Option<u32>
    ensures { result ≡ rows_twin (numbers rows.now) rows.now.links.now }
{
    let width = rows.width();
    let mut count = 0;
    for block in 1..=rows.blocks() {
        let filed = rows.filed_of(block);
        if !row_fits(rows.signature_of(block), rows.next_of(block), filed, width) {
            return None;
        }
        count += filed;
    }
    Some(count)
}

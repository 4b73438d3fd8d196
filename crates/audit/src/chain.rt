// The chain of a leaf: filed blocks of one signature. It ends on any words, since each block takes one of those lent.
ghost use Rattle.std.specs.Prelude.{◌≡◌, ◌≤◌, length};
ghost use Rattle.model.specs.Tables.{width_of};
ghost use Rattle.model.specs.Wide.{word_count, number_in};
ghost use Rattle.tables.specs.Rows.{numbers};
ghost use Rattle.audit.specs.Audit.{block_ok, chain_twin};

use tables::Rows;

// Whether the block may stand on the chain of the signature: it is filed, and has that signature.
#[tactic(auto, unfolding(crate::specs::Audit::block_ok))]
fn on_chain(rows: &Rows, signature: &[u64], block: usize) -> bool
    requires { (1 ≤ block) × (length signature.now ≡ word_count (width_of rows.now.links.now)) }
    ensures { result ≡ block_ok (numbers rows.now) rows.now.links.now (number_in signature.now) block }
{
    block <= rows.blocks()
        && rows.filed_of(block) == 1
        && signature::same(signature, rows.signature_of(block))
}

// Follows the next words from the head: the blocks left of those lent, where the chain is fit.
pub(crate) fn follow(rows: &Rows, signature: &[u64], head: u32, lent: u32) -> Option<u32>
    requires { length signature.now ≡ word_count (width_of rows.now.links.now) }
    ensures { result ≡ chain_twin lent (numbers rows.now) rows.now.links.now (number_in signature.now) head }
{
    let mut block = head as usize;
    let mut left = lent;
    // Over the blocks lent, a `for` would ask twice whether the chain has ended. `std::iter::successors` ends alike at the chain's end and
    // at an unfit block, so that a test after it would have to tell them apart.
    while block != 0 {
        if left == 0 || !on_chain(rows, signature, block) {
            return None;
        }
        block = rows.next_of(block) as usize;
        left -= 1;
    }
    Some(left)
}

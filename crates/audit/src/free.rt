// The free chain: exactly as many nodes as the tree left, each with position and right 0.
ghost use Rattle.std.specs.Prelude.{◌≡◌, length};
ghost use Rattle.model.specs.Tables.{free_of};
ghost use Rattle.model.specs.Packed.{unpacked};
ghost use Rattle.audit.specs.Audit.{after_free, free_twin};

use tables::Form;
use tables::nodes::Parts;

// What the node leads to, where it may stand on the free chain.
#[tactic(auto, unfolding(crate::specs::Audit::free_ok))]
fn next_free<F: Form>(form: &F, node: usize) -> Option<u32>
    ensures { result ≡ after_free (unpacked (F.links form.now) (F.nodes form.now)) (length (F.signatures form.now)) node }
{
    if node == 0 || form.rows().blocks() <= node {
        return None;
    }
    let Parts {
        position,
        left,
        right,
    } = form.node(node);
    (position == 0 && right == 0).then_some(left)
}

// Whether the free chain holds exactly so many nodes, and ends.
pub(crate) fn free_chain<F: Form>(form: &F, many: u32) -> bool
    ensures { result ≡ free_twin many (unpacked (F.links form.now) (F.nodes form.now)) (length (F.signatures form.now)) (free_of (unpacked (F.links form.now) (F.nodes form.now))) }
{
    let mut node = form.rows().first_free();
    for _ in 0..many {
        let Some(next) = next_free(form, node as usize) else {
            return false;
        };
        node = next;
    }
    node == 0
}

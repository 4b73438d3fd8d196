// A node that the walk meets: it tests a position 1 to the width that was not tested above it.
ghost use Rattle.std.specs.Prelude.{◌≡◌, ◌≤◌, length, IfSome};
ghost use Rattle.model.specs.Tables.{width_of};
ghost use Rattle.model.specs.Packed.{unpacked};
ghost use Rattle.model.specs.Wide.{word_count, number_in};
ghost use Rattle.audit.specs.Audit.{weighed, look_twin};

use signature::{Position, Positions};
use tables::Form;
use tables::nodes::Parts;

// A node that may stand here: its position, and its two references.
#[derive(Clone, Copy)]
pub struct Node {
    pub position: Position,
    pub left: u32,
    pub right: u32,
}

// The node, where its position is 1 to the width, and not tested above it.
pub(crate) fn look<F: Form>(form: &F, mask: &[u64], node: usize) -> Option<Node>
    requires { (1 ≤ node) × (length mask.now ≡ word_count (width_of (F.links form.now))) }
    ensures fit { weighed result ≡ look_twin (unpacked (F.links form.now) (F.nodes form.now)) (length (F.signatures form.now)) (number_in mask.now) node }
    ensures width { IfSome result (λ node. node.position.width ≡ width_of (F.links form.now)) }
{
    let rows = form.rows();
    if rows.blocks() <= node {
        return None;
    }
    let Parts {
        position,
        left,
        right,
    } = form.node(node);
    let position = Position::of(rows.width(), position)?;
    if mask.is_set(position) {
        return None;
    }
    Some(Node {
        position,
        left,
        right,
    })
}

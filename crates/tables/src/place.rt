// Where a reference to a leaf or a node stands.
use crate::side::Side;

// In the word for the root, or on a side of a node.
#[derive(Clone, Copy, Debug, PartialEq, Eq)]
pub enum Place {
    Root,
    Below { node: usize, side: Side },
}

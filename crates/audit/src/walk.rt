// The walk from the root down, which calls itself on each side. It ends on any words: positions untested fall at each call, and the
// nodes and blocks that it may look at are lent to it. So is the path so far: a walk sets its position there, and puts back what it set.
ghost use Rattle.std.specs.Prelude.{◌≡◌, ◌≤◌, length, IfSome};
ghost use Rattle.model.specs.Packed.{unpacked};
ghost use Rattle.tables.specs.Rows.{numbers};
ghost use Rattle.audit.specs.Audit.{tested_in, leaf_twin, walk_twin, tree_twin};

use super::chain::follow;
use super::node::look;
use signature::MOST_WORDS;
use tables::{Form, Rows};

// The nodes, and the blocks on chains, that a walk may look at.
#[derive(Clone, Copy)]
pub struct Lent {
    pub nodes: u32,
    pub blocks: u32,
}

// The path from the root: the positions tested on it as a mask, and those of them where the right edge was taken. Of each array the words
// in front are used, as many as a signature has. (They are arrays behind one reference: a walk that is lent the two as slices takes a
// tenth longer.)
#[derive(Drop)]
pub struct Path {
    pub mask: [u64; MOST_WORDS],
    pub edges: [u64; MOST_WORDS],
}

// A leaf: its signature agrees with every edge on the path, and its chain is fit. What is left of that lent. (The head has its own
// signature, so that of it the chain asks only whether it is filed.) Inlined, so that what is left of that lent stays in registers.
#[inline(always)]
#[tactic(auto, unfolding(crate::specs::Audit::leaf_twin))]
fn leaf(rows: &Rows, path: &Path, reference: u32, lent: Lent) -> Option<Lent>
    requires { reference ≤ length (numbers rows.now) }
    ensures { result ≡ leaf_twin (numbers rows.now) rows.now.links.now (tested_in rows.now.links.now path.now) reference lent }
{
    if reference == 0 {
        return None;
    }
    let head = reference as usize;
    let signature = rows.signature_of(head);
    if !signature::agrees(
        signature,
        &path.mask[..rows.words],
        &path.edges[..rows.words],
    ) {
        return None;
    }
    if lent.blocks == 0 || rows.filed_of(head) != 1 {
        return None;
    }
    let blocks = follow(rows, signature, rows.next_of(head), lent.blocks - 1)?;
    Some(Lent { blocks, ..lent })
}

// The subtree at a reference, below the path. What is left of that lent, where the subtree is fit: then the path is as it was, and else
// nobody goes on. (What the reference leads to is told by one comparison with the number of blocks, and in `leaf` by one with 0.)
fn walk<F: Form>(
    form: &F,
    path: &mut Path,
    reference: u32,
    untested: u32,
    lent: Lent,
) -> Option<Lent>
    ensures fit { result ≡ walk_twin untested (F.signatures form.now) (unpacked (F.links form.now) (F.nodes form.now)) (tested_in (F.links form.now) path.old) reference lent }
    ensures back { IfSome result (λ left. path.new ≡ path.old) }
{
    let rows = form.rows();
    let blocks = rows.blocks();
    let at = reference as usize;
    if at <= blocks {
        return leaf(&rows, path, reference, lent);
    }
    if untested == 0 || lent.nodes == 0 {
        return None;
    }
    let words = rows.words;
    let node = look(form, &path.mask[..words], at - blocks)?;
    let below = Lent {
        nodes: lent.nodes - 1,
        ..lent
    };
    let tested = node.position.set(&mut path.mask[..words]);
    let rest = walk(form, path, node.left, untested - 1, below)?;
    let taken = node.position.set(&mut path.edges[..words]);
    let left = walk(form, path, node.right, untested - 1, rest)?;
    node.position.put_back(&mut path.mask[..words], tested);
    node.position.put_back(&mut path.edges[..words], taken);
    Some(left)
}

// The tree from the root, where no position is tested.
pub(crate) fn whole_tree<F: Form>(form: &F, lent: Lent) -> Option<Lent>
    ensures { result ≡ tree_twin (F.signatures form.now) (unpacked (F.links form.now) (F.nodes form.now)) lent }
{
    let rows = form.rows();
    let root = rows.root();
    if root == 0 {
        return Some(lent);
    }
    let mut path = Path {
        mask: [0; MOST_WORDS],
        edges: [0; MOST_WORDS],
    };
    walk(form, &mut path, root, rows.width(), lent)
}

// From one form of the tables to the other, over the same signatures. The slices come one by one, as C lends them: one form to be read,
// which is `Tables` or `Unpacked` once question 4 says yes, and the other to be written, of which nothing is read.
#![tactic(auto)]

ghost use Rattle.std.specs.Prelude.{◌≡◌, ◌+◌, ◌*◌, ◌≤◌, length};
ghost use Rattle.answers.specs.Answers.{answer_of};
ghost use Rattle.model.specs.Limits.{most_blocks};
ghost use Rattle.model.specs.Packed.{opened, packed_nodes};
ghost use Rattle.model.specs.PackedPromises.{PackPromise, UnpackPromise};
ghost use Rattle.tables.specs.Rows.{numbers};
ghost use Rattle.convert.specs.Fitting.{NodesFit};

use answers::Refusal;
use tables::nodes::{Parts, set_node};
use tables::{Form, Tables, Unpacked, front};

// Copies the words in front of the nodes. (By index: of the slices' own copy the compiler makes a call of C's `memmove`, which not everyone who
// links the library has.)
#[tactic(auto, using(std::proofs::lemmas::List::take_more_set, std::proofs::lemmas::List::take_more))]
fn copy_words(from: &[u32], to: &mut [u32])
    requires { length to.old ≡ length from.now }
    ensures { to.new ≡ from.now }
{
    for i in 0..from.len() {
        to[i] = from[i];
    }
}

// The three words of each node. They are written by index: of what was written through `chunks_exact_mut` a proof knows the length alone, and
// a copy of an array of them takes longer.
#[tactic(auto, unfolding(model::specs::Packed::opened), using(crate::proofs::Opening::open_more))]
fn open_nodes(nodes: &[u64], words: &mut [u32])
    requires { (length words.old ≡ 3 * length nodes.now) × (length nodes.now ≤ most_blocks) }
    ensures { words.new ≡ opened nodes.now }
{
    for (i, node) in nodes.iter().enumerate() {
        let Parts {
            position,
            left,
            right,
        } = Parts::from(*node);
        words[3 * i] = position;
        words[3 * i + 1] = left;
        words[3 * i + 2] = right;
    }
}

// Unpacks sound tables: question 4, of the target's length too, then 11; a refusal changes nothing.
pub fn unpack(
    signatures: &[u64],
    links: &[u32],
    nodes: &[u64],
    old: &mut [u32],
) -> Result<(), Refusal>
    ensures { UnpackPromise signatures.now links.now nodes.now old.old (answer_of result) old.new }
{
    if !front::unpack_fits(links.len(), nodes.len(), old.len()) {
        return Err(Refusal::Unfit);
    }
    let tables = Tables::of(signatures, links, nodes)?;
    audit::sound(&tables)?;
    let (rows, words) = old.split_at_mut(links.len());
    copy_words(links, rows);
    open_nodes(nodes, words);
    Ok(())
}

// One word for each node.
fn close_nodes(tables: &Unpacked, nodes: &mut [u64])
    requires length { length nodes.old + 1 ≡ length (numbers tables.now.rows) }
    requires nodes_fit { NodesFit (length (numbers tables.now.rows)) tables.now.rows.links.now }
    ensures { nodes.new ≡ packed_nodes (length (numbers tables.now.rows)) tables.now.rows.links.now }
{
    for node in 1..tables.rows.blocks() {
        set_node(nodes, node, tables.node(node));
    }
}

// Packs sound tables: question 4, of the target's lengths too, then 11; a refusal changes nothing.
pub fn pack(
    signatures: &[u64],
    old: &[u32],
    links: &mut [u32],
    nodes: &mut [u64],
) -> Result<(), Refusal>
    ensures { PackPromise signatures.now old.now links.old nodes.old (answer_of result) links.new nodes.new }
{
    if !front::pack_fits(old.len(), links.len(), nodes.len()) {
        return Err(Refusal::Unfit);
    }
    let tables = Unpacked::of(signatures, old)?;
    audit::sound(&tables)?;
    copy_words(&old[..links.len()], links);
    close_nodes(&tables, nodes);
    Ok(())
}

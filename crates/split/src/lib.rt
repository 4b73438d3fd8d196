// A group of head blocks, one for each of its distinct signatures, becomes a tree: it is parted in place at the position where the
// smaller side is largest, its node is written, and each half of it is lent to a call of its own. (The group stays a slice, and that its
// entries are blocks a clause: it is parted in place, and a ghost field beside a `&mut` is not covered by the check.)
#![tactic(auto)]

ghost use Rattle.std.specs.Prelude.{◌≡◌, ℕ, eqb, ◌+◌, ◌^◌, ◌<◌, ◌≤◌, length, List};
ghost use Rattle.std.proofs.lemmas.List.Edits.{sets};
ghost use Rattle.model.specs.Limits.{widest};
ghost use Rattle.model.specs.Signature.{bit_at};
ghost use Rattle.model.specs.Build.{side, smaller, best_position};
ghost use Rattle.model.specs.Tables.{position_at, width_of, signature_of};
ghost use Rattle.model.specs.Packed.{unpacked, Packs};
ghost use Rattle.model.specs.Rebuild.{group_nodes};
ghost use Rattle.tables.specs.Rows.{numbers};
ghost use Rattle.split.specs.Split.{Blocks, Group, Parted, Halved, reference_to};

use signature::Position;
use tables::nodes::{Parts, set_node};
use tables::{OneWord, Rows, Signatures};

// The blocks' signatures, and their width.
#[derive(Drop)]
struct Signed<S: Signatures> {
    signatures: S,
    width: u32,
    ghost is_width: { (1 ≤ width) × (width ≤ widest) },
    ghost room: { width ≤ S.places signatures },
}

// Where a group was split: at which position, and how many blocks have bit 0 there.
#[derive(Clone, Copy, Debug, PartialEq, Eq)]
pub struct Cut {
    pub position: u32,
    pub low: usize,
}

impl<S: Signatures> Signed<S> {
    // How many blocks of the group have the bit set. (The bits are summed: a `filter` with `count` is slower, since it branches at each of
    // them, and they are as good as random.)
    fn ones(&self, group: &[u32], position: Position) -> usize
        requires blocks { Blocks (length (S.numbers self.now.signatures)) group.now }
        requires room { position.width ≤ S.places self.now.signatures }
        ensures { result ≡ length (side position.width (signature_of (S.numbers self.now.signatures)) position.number 1 group.now) }
    {
        group
            .iter()
            .map(|block| usize::from(self.signatures.is_set(*block as usize, position)))
            .sum()
    }

    // The size of the smaller side where the group is split at the position.
    fn smaller_side(&self, group: &[u32], position: Position) -> usize
        requires blocks { Blocks (length (S.numbers self.now.signatures)) group.now }
        requires room { position.width ≤ S.places self.now.signatures }
        ensures { result ≡ smaller position.width (signature_of (S.numbers self.now.signatures)) position.number group.now }
    {
        let right = self.ones(group, position);
        right.min(group.len() - right)
    }

    // The position, 1 to `width`, where the smaller side is largest, the lowest on a tie.
    fn best_position(&self, group: &[u32]) -> Position
        requires { Blocks (length (S.numbers self.now.signatures)) group.now }
        ensures width { result.width ≡ self.now.width }
        ensures best { result.number ≡ best_position self.now.width (signature_of (S.numbers self.now.signatures)) group.now }
    {
        let width = self.width;
        let mut best = Position { width, number: 1 };
        let mut size = self.smaller_side(group, best);
        for number in 2..=width {
            let position = Position { width, number };
            let next = self.smaller_side(group, position);
            if size < next {
                size = next;
                best = position;
            }
        }
        best
    }

    // Those blocks with bit 0 first, then those with 1. The result is how many have 0. No iterator has two ends that meet while the
    // entries between them change places.
    fn partition(&self, group: &mut [u32], position: Position) -> usize
        requires blocks { Blocks (length (S.numbers self.now.signatures)) group.old }
        requires room { position.width ≤ S.places self.now.signatures }
        ensures { Parted position.width (signature_of (S.numbers self.now.signatures)) position.number group.old group.new result }
    {
        let mut low = 0;
        let mut end = group.len();
        while low < end {
            if self.signatures.is_set(group[low] as usize, position) {
                end -= 1;
                group.swap(low, end);
            } else {
                low += 1;
            }
        }
        low
    }

    // Parts the group in place at its best position.
    fn split(&self, group: &mut [u32]) -> Cut
        requires { Blocks (length (S.numbers self.now.signatures)) group.old }
        ensures { Halved self.now.width (signature_of (S.numbers self.now.signatures)) group.old group.new result.position result.low }
    {
        let position = self.best_position(group);
        let low = self.partition(group, position);
        Cut {
            position: position.number,
            low,
        }
    }
}

// The same of the tables' signatures. One word to a signature is read as such.
fn halve(rows: &Rows, group: &mut [u32]) -> Cut
    requires { Blocks (length (numbers rows.now)) group.old }
    ensures { Halved (width_of rows.now.links.now) (signature_of (numbers rows.now)) group.old group.new result.position result.low }
{
    let width = rows.width();
    if rows.words == 1 {
        let signatures = OneWord { rows: *rows };
        return Signed { signatures, width }.split(group);
    }
    let signatures = *rows;
    Signed { signatures, width }.split(group)
}

// Writes the nodes of the group's tree from node `first` on, beside any links: a node, all of its left side, then its right.
pub fn build(rows: &Rows, nodes: &mut [u64], group: &mut [u32], first: usize)
    requires group { Group (width_of rows.now.links.now) (numbers rows.now) group.old }
    requires lengths { length nodes.old + 1 ≡ length (numbers rows.now) }
    requires le_first { (1 ≤ first) × (first + length group.old ≤ length (numbers rows.now) + 1) }
    ensures { (links : List ℕ) → Packs (length (numbers rows.now)) links nodes.old → unpacked links nodes.new ≡ sets (unpacked links nodes.old) (position_at (length (numbers rows.now)) first) (group_nodes (length group.old) (width_of rows.now.links.now) (numbers rows.now) group.old first) }
{
    let size = group.len();
    if size < 2 {
        return;
    }
    let Cut { position, low } = halve(rows, group);
    let blocks = rows.blocks();
    let left = reference(low, group[0], blocks + first + 1);
    let right = reference(size - low, group[low], blocks + first + low);
    let parts = Parts {
        position,
        left,
        right,
    };
    set_node(nodes, first, parts);
    build(rows, nodes, &mut group[..low], first + 1);
    build(rows, nodes, &mut group[low..], first + low);
}

// The reference to a group of this size, as a word of the tables: 0 for nothing, its head, or its first node.
pub fn reference(size: usize, head: u32, node: usize) -> u32
    requires { node < 2 ^ 32 }
    ensures { result ≡ reference_to size head node }
{
    match size {
        0 => 0,
        1 => head,
        _ => node as u32,
    }
}

// Tables that are lent to be read, of which question 4 says yes: whoever has them need not ask it again.
ghost use Rattle.std.specs.Prelude.{◌≡◌, ◌&&◌, IfOk};
ghost use Rattle.model.specs.Packed.{unpacked};
ghost use Rattle.model.specs.Questions.{ask, asks_tables, tables_fit};
ghost use Rattle.model.specs.PackedPromises.{packed_fit};
ghost use Rattle.answers.specs.Answers.{answer_of};
ghost use Rattle.tables.specs.Fits.{FitsPacked};
ghost use Rattle.tables.specs.Rows.{numbers};

use crate::rows::Rows;
use crate::{address, front};
use answers::Refusal;

// The rows, and a word for each node.
#[derive(Clone, Copy)]
pub struct Tables<'a> {
    pub rows: Rows<'a>,
    pub nodes: &'a [u64],
    pub ghost fits: { FitsPacked (numbers rows) rows.signatures.now rows.links.now nodes.now },
}

impl<'a> Tables<'a> {
    // Question 4, as the calls on packed tables ask it. (`Unpacked::of` is no instance of it: other slices are lent, and other lengths are
    // asked for.)
    pub fn of(
        signatures: &'a [u64],
        links: &'a [u32],
        nodes: &'a [u64],
    ) -> Result<Tables<'a>, Refusal>
        ensures asked { answer_of result ≡ ask 4 (packed_fit links.now nodes.now && tables_fit (asks_tables signatures.now (unpacked links.now nodes.now))) 0 }
        ensures read { IfOk result (λ t. (t.rows.signatures.now ≡ signatures.now) × (t.rows.links.now ≡ links.now) × (t.nodes.now ≡ nodes.now)) }
    {
        let blocks = front::packed_blocks(links.len());
        if !front::lengths_fit(links.len(), nodes.len()) || !front::words_fit(links, blocks) {
            return Err(Refusal::Unfit);
        }
        let width = links[address::WIDTH];
        if !front::signatures_fit(signatures.len(), blocks, width) {
            return Err(Refusal::Unfit);
        }
        let rows = Rows {
            signatures,
            links,
            blocks,
            words: signature::words_of(width),
        };
        Ok(Tables { rows, nodes })
    }
}

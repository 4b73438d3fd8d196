// Tables of 5 * B + 2 links, lent to be read, of which question 4 says yes.
ghost use Rattle.std.specs.Prelude.{◌≡◌, IfOk};
ghost use Rattle.model.specs.Questions.{ask, asks_tables, tables_fit};
ghost use Rattle.answers.specs.Answers.{answer_of};
ghost use Rattle.tables.specs.Fits.{FitsUnpacked};
ghost use Rattle.tables.specs.Rows.{numbers};

use crate::rows::Rows;
use crate::{address, front};
use answers::Refusal;

// The rows, and behind them in the same links three words for each node.
#[derive(Clone, Copy)]
pub struct Unpacked<'a> {
    pub rows: Rows<'a>,
    pub ghost fits: { FitsUnpacked (numbers rows) rows.signatures.now rows.links.now },
}

impl<'a> Unpacked<'a> {
    // Question 4 of this form.
    pub fn of(signatures: &'a [u64], links: &'a [u32]) -> Result<Unpacked<'a>, Refusal>
        ensures asked { answer_of result ≡ ask 4 (tables_fit (asks_tables signatures.now links.now)) 0 }
        ensures read { IfOk result (λ t. (t.rows.signatures.now ≡ signatures.now) × (t.rows.links.now ≡ links.now)) }
    {
        let blocks = front::unpacked_blocks(links.len());
        if !front::unpacked_lengths(links.len()) || !front::words_fit(links, blocks) {
            return Err(Refusal::Unfit);
        }
        let width = links[address::WIDTH];
        if !front::signatures_fit(signatures.len(), blocks, width) {
            return Err(Refusal::Unfit);
        }
        let rows = Rows {
            signatures,
            links,
            blocks,
            words: signature::words_of(width),
        };
        Ok(Unpacked { rows })
    }
}

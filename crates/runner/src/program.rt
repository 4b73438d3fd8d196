// The program sigrun. Its crates `sigrun`, `sigrun_random` and `sigrun_empty` are this program on other inputs.
ghost use Rattle.std.specs.Prelude.{◌≡◌};
ghost use Rattle.runner.specs.Served.{Took};
ghost use Rattle.runner.specs.Indexed.{memory_of, zeros};

use crate::{holds_index, serve};
use sigtree::Work;
use std::io::{Read, Write};
use tables::TablesMut;

// An index of 1,024 blocks with words for signatures of any width, and the slices that its calls borrow.
#[derive(Drop)]
pub struct Index {
    pub signatures: [u64; 8192],
    pub links: [u32; 2053],
    pub nodes: [u64; 1023],
    pub scratch: [u32; 1024],
    pub marks: [u8; 1024],
    pub output: [u32; 1024],
}

impl Index {
    // The index whose words are all 0.
    fn zeroed() -> Index
        ensures { memory_of result ≡ zeros }
    {
        Index {
            signatures: [0; 8192],
            links: [0; 2053],
            nodes: [0; 1023],
            scratch: [0; 1024],
            marks: [0; 1024],
            output: [0; 1024],
        }
    }

    // Serves the reader's slips on the index, and prints a line for each. That `serve` serves none is shut out first.
    fn serve<R: Read, W: Write>(&mut self, reader: &mut R, writer: &mut W)
        ensures { Took (R.remaining reader.old) (R.remaining reader.new) (memory_of self.old) (memory_of self.new) }
    {
        let mut input = [0u8; 65536];
        let mut text = [0u8; 65536];
        let mut tables = TablesMut {
            signatures: &mut self.signatures,
            links: &mut self.links,
            nodes: &mut self.nodes,
        };
        let mut work = Work {
            scratch: &mut self.scratch,
            marks: &mut self.marks,
            output: &mut self.output,
        };
        let held = holds_index(&tables);
        prove!(held);
        let room = text.len() >= 48 + 11 * work.output.len();
        prove!(room);
        serve(
            reader,
            writer,
            &mut tables,
            &mut work,
            &mut input,
            &mut text,
        );
    }
}

// Serves the reader's slips on an index whose words are all 0 at the start, prints a line for each, and answers the index as it is then.
pub fn sigrun<R: Read, W: Write>(reader: &mut R, writer: &mut W) -> Index
    ensures { Took (R.remaining reader.old) (R.remaining reader.new) zeros (memory_of result) }
{
    let mut index = Index::zeroed();
    index.serve(reader, writer);
    index
}

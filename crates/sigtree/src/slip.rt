// The slip reader: the call that a slip carries, on the slices that are lent with it.
ghost use Rattle.std.specs.Prelude.{◌≡◌, ◌≤◌, length, IfOk};
ghost use Rattle.model.specs.Limits.{widest};
ghost use Rattle.model.specs.Wide.{word_count};
ghost use Rattle.model.specs.PackedPromises.{PackedRebuild, PackedSearch};
ghost use Rattle.model.specs.PackedLists.{PackedSlip};
ghost use Rattle.answers.specs.Answers.{answer_of, report_of};
ghost use Rattle.tables.specs.Changed.{SameLoans};
ghost use Rattle.slips.specs.Order.{Told};
ghost use Rattle.sigtree.specs.Held.{lent_in, SameWork};
ghost use Rattle.sigtree.specs.Asked.{asked_of, FieldWords};

use crate::work::Work;
use answers::{Counts, Refusal};
use signature::MOST_WORDS;
use slips::Order;
use tables::TablesMut;

// A rebuild only reads the signatures. Here they are lent to be changed, as the other fields of the tables are: of a field lent to be read
// beside fields lent to be changed, the check knows nothing afterwards.
fn rebuild_lent(
    signatures: &mut [u64],
    links: &mut [u32],
    nodes: &mut [u64],
    scratch: &mut [u32],
) -> Result<(), Refusal>
    ensures promise { PackedRebuild signatures.old links.old nodes.old scratch.old (answer_of result) links.new nodes.new scratch.new }
    ensures signatures { signatures.new ≡ signatures.old }
{
    rebuild::rebuild(signatures, links, nodes, scratch)
}

// Rebuilds the lent tables.
fn rebuild(tables: &mut TablesMut, scratch: &mut [u32]) -> Result<(), Refusal>
    ensures promise { PackedRebuild tables.old.signatures.now tables.old.links.now tables.old.nodes.now scratch.old (answer_of result) tables.new.links.now tables.new.nodes.now scratch.new }
    ensures signatures { tables.new.signatures.now ≡ tables.old.signatures.now }
    ensures loans { SameLoans tables.old tables.new }
{
    rebuild_lent(tables.signatures, tables.links, tables.nodes, scratch)
}

// Searches the lent tables.
fn search(
    tables: &TablesMut,
    query: &[u64],
    marks: &mut [u8],
    output: &mut [u32],
) -> Result<Counts, Refusal>
    ensures promise { PackedSearch tables.now.signatures.now tables.now.links.now tables.now.nodes.now query.now marks.old output.old (report_of result) marks.new output.new }
    ensures found { IfOk result (λ counts. counts.found ≤ length output.new) }
{
    search::search(
        tables.signatures,
        tables.links,
        tables.nodes,
        query,
        marks,
        output,
    )
}

// How many words a signature of the tables has, where they fit, as all calls but clear ask it: what the reader of slips is told of them.
fn field_words(tables: &TablesMut) -> Option<usize>
    ensures { FieldWords (asked_of tables.now) result }
{
    match tables.read() {
        Ok(read) => Some(read.rows.words),
        Err(_) => None,
    }
}

// Carries out the slip, whose words have this field.
fn carry_by(
    slip: &[u8],
    fit: bool,
    field: &mut [u64],
    tables: &mut TablesMut,
    work: &mut Work,
) -> Result<Counts, Refusal>
    requires { Told (asked_of tables.old) fit (length field.old) × (length field.old ≤ word_count widest) }
    ensures promise { PackedSlip slip.now (lent_in tables.old work.old) (report_of result) (lent_in tables.new work.new) }
    ensures found { IfOk result (λ counts. counts.found ≤ length work.new.output.now) }
    ensures loans { SameLoans tables.old tables.new × SameWork work.old work.new }
{
    match slips::read(slip, fit, field)? {
        Order::Clear { width } => clear::clear(tables, width)?,
        Order::File { block } => file::file(tables, block, field)?,
        Order::Withdraw { block } => withdraw::withdraw(tables, block)?,
        Order::Rebuild => rebuild(tables, work.scratch)?,
        Order::Search => return search(tables, field, work.marks, work.output),
    }
    Ok(Counts::default())
}

// The questions that are asked of slips, then the call's own; the promise is that of the call carried out. (One struct of tables and work was
// tried: of slices that a caller is lent and puts into two structs in one, the check knows nothing after the call.)
pub fn carry_out(slip: &[u8], tables: &mut TablesMut, work: &mut Work) -> Result<Counts, Refusal>
    ensures promise { PackedSlip slip.now (lent_in tables.old work.old) (report_of result) (lent_in tables.new work.new) }
    ensures found { IfOk result (λ counts. counts.found ≤ length work.new.output.now) }
    ensures loans { SameLoans tables.old tables.new × SameWork work.old work.new }
{
    let told = field_words(tables);
    let words = told.unwrap_or(0);
    let mut field = [0; MOST_WORDS];
    carry_by(slip, told.is_some(), &mut field[..words], tables, work)
}

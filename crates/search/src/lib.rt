// Search: the list of the blocks that match a query, and its counts.
#![tactic(auto)]

mod budget;
mod list;
mod marking;
mod sought;
mod walk;

ghost use Rattle.std.specs.Prelude.{◌≡◌, ◌-◌, ◌^◌, ◌≤◌, ◌<◌, length, eqb, leb, ltb, IfOk};
ghost use Rattle.answers.specs.Answers.{answer_of, report_of};
ghost use Rattle.model.specs.Questions.{ask};
ghost use Rattle.model.specs.Wide.{word_count, number_in};
ghost use Rattle.model.specs.Tables.{width_of, root_of};
ghost use Rattle.tables.specs.Held.{signatures_held, blocks_held, held};
ghost use Rattle.model.specs.PackedPromises.{PackedSearch};
ghost use Rattle.search.specs.Budget.{Forking};
ghost use Rattle.search.specs.Marks.{SameLoan};
ghost use Rattle.search.specs.Queries.{walk_in};
ghost use Rattle.search.specs.Search.{found_twin};

use answers::{Counts, Refusal};
use budget::Budget;
use marking::Marks;
use signature::Wanted;
use tables::{Rows, Tables};
use walk::Query;

// Questions 4 and 6: has the query as many words as a signature, and does its number fit the width?
fn query_fits(rows: &Rows, query: &[u64]) -> Result<(), Refusal>
    ensures { answer_of result ≡ ask 4 (eqb (length query.now) (word_count (width_of rows.now.links.now))) (ask 6 (ltb (number_in query.now) (2 ^ width_of rows.now.links.now)) 0) }
{
    if query.len() != rows.words {
        return Err(Refusal::Unfit);
    }
    if !signature::fits(query, rows.width()) {
        return Err(Refusal::TooLarge);
    }
    Ok(())
}

// Questions 9 and 10: are the marks and the output as long as there are blocks?
fn buffers_fit(blocks: usize, marks: usize, output: usize) -> Result<(), Refusal>
    ensures { answer_of result ≡ ask 9 (leb blocks marks) (ask 10 (leb blocks output) 0) }
{
    if marks < blocks {
        return Err(Refusal::ShortScratch);
    }
    if output < blocks {
        return Err(Refusal::ShortOutput);
    }
    Ok(())
}

// How many of the blocks' number are used where some are left.
fn used(blocks: usize, left: u64) -> u32
    requires { (blocks ≤ 65535) × (left ≤ blocks) }
    ensures { result ≡ blocks - left }
{
    (blocks as u64 - left) as u32
}

// Walks the tree of the tables by a query that fits. One word is handed on by itself: it stays in a register.
fn walk_by(tables: &Tables, query: &[u64], marks: &mut Marks, left: Budget) -> Budget
    requires query { (length query.now ≡ word_count (width_of tables.now.rows.links.now)) × (number_in query.now < 2 ^ width_of tables.now.rows.links.now) }
    requires room { blocks_held tables.now ≤ length marks.old.bytes.now }
    requires rooted { (1 ≤ root_of tables.now.rows.links.now) × Forking left }
    ensures loan { SameLoan marks.new.bytes marks.old.bytes }
    ensures gives { (result, marks.new.bytes.now) ≡ walk_in tables.now (number_in query.now) left marks.old.bytes.now }
{
    if query.len() == 1 {
        return Query::of(*tables, query[0]).walk_tree(marks, left);
    }
    Query::of(*tables, Wanted::of(query)).walk_tree(marks, left)
}

// A search that no question refuses.
fn find(
    tables: &Tables,
    query: &[u64],
    marks: &mut [u8],
    output: &mut [u32],
) -> Result<Counts, Refusal>
    requires query { (length query.now ≡ word_count (width_of tables.now.rows.links.now)) × (number_in query.now < 2 ^ width_of tables.now.rows.links.now) }
    requires room { (blocks_held tables.now ≤ length marks.old) × (blocks_held tables.now ≤ length output.old) }
    ensures gives { (report_of result, marks.new, output.new) ≡ found_twin (signatures_held tables.now) (held tables.now) (number_in query.now) marks.old output.old }
    ensures found { IfOk result (λ c. c.found ≤ length output.new) }
{
    let rows = &tables.rows;
    let blocks = rows.blocks();
    let mut marks = Marks::none(marks, blocks);
    if rows.root() == 0 {
        return Ok(Counts::default());
    }
    let left = walk_by(tables, query, &mut marks, Budget::lend(blocks));
    if left.forks() == 0 {
        return Err(Refusal::Unsound);
    }
    let found = used(blocks, left.blocks());
    list::list_marked(&marks, output, blocks, found as usize);
    Ok(Counts {
        found,
        compares: used(blocks, left.forks()) + 1,
        bits: used(blocks - 1, left.nodes()),
    })
}

// Lists the filed blocks whose signatures cover the query. The slices come one by one, as C lends them; those of the tables are `Tables`
// once question 4 says yes.
pub fn search(
    signatures: &[u64],
    links: &[u32],
    nodes: &[u64],
    query: &[u64],
    marks: &mut [u8],
    output: &mut [u32],
) -> Result<Counts, Refusal>
    ensures promise { PackedSearch signatures.now links.now nodes.now query.now marks.old output.old (report_of result) marks.new output.new }
    ensures found { IfOk result (λ c. c.found ≤ length output.new) }
{
    let tables = Tables::of(signatures, links, nodes)?;
    query_fits(&tables.rows, query)?;
    buffers_fit(tables.rows.blocks(), marks.len(), output.len())?;
    find(&tables, query, marks, output)
}

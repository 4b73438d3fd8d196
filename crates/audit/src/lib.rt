// Audit: are the tables sound? It only reads, and on any words it ends after at most B rows, B - 1 nodes and B blocks on chains.
#![tactic(auto)]

mod answer;
mod chain;
mod free;
mod node;
mod rows;
mod walk;

ghost use Rattle.model.specs.Promises.{AuditPromise};
ghost use Rattle.model.specs.PackedPromises.{PackedAudit};
ghost use Rattle.answers.specs.Answers.{answer_of};

pub use answer::sound;
use answers::Refusal;
use tables::{Tables, Unpacked};

// The audit: question 4, then 11. The slices come one by one, as C lends them; they are `Tables` once question 4 says yes.
pub fn audit(signatures: &[u64], links: &[u32], nodes: &[u64]) -> Result<(), Refusal>
    ensures { PackedAudit signatures.now links.now nodes.now (answer_of result) }
{
    let tables = Tables::of(signatures, links, nodes)?;
    sound(&tables)
}

// The same of tables in the form of 5 * B + 2 links: the same verdict.
pub fn audit_unpacked(signatures: &[u64], links: &[u32]) -> Result<(), Refusal>
    ensures { AuditPromise signatures.now links.now (answer_of result) }
{
    let tables = Unpacked::of(signatures, links)?;
    sound(&tables)
}

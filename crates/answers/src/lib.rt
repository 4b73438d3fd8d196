// What a call gives back: what it found or did, or a refusal. Document 01 gives each answer a number; which, stands here alone.
#![tactic(auto)]

mod refusal;
mod report;

pub use refusal::Refusal;
pub use report::{Counts, Report, answer};

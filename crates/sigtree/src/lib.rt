// The library for callers in Rattle: each call under its own name, and the slip reader, which carries out the call that a slip carries; and
// the same with plain numbers and slices, which the crate `sigtree_c` gives to C and Rust.
#![tactic(auto)]

mod face;
mod slip;
mod work;

pub use audit::{audit, audit_unpacked};
pub use clear::clear;
pub use convert::{pack, unpack};
pub use face::{
    sigtree_audit, sigtree_clear, sigtree_file, sigtree_pack, sigtree_rebuild, sigtree_search,
    sigtree_sign, sigtree_slip, sigtree_unpack, sigtree_withdraw, sigtree_word,
};
pub use file::file;
pub use rebuild::rebuild;
pub use search::search;
pub use slip::carry_out;
pub use withdraw::withdraw;
pub use words::{sign, word, word_place};
pub use work::Work;

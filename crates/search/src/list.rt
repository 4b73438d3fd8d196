// The list of the marked blocks, ascending, at the front of the output. Runs of 64 blocks without a mark are passed over, and the
// listing stops at the last marked block: it writes no word beyond the list. (What the functions hand on stays arguments: as fields of a
// struct it were no plainer, since each contract would have to say that marks, output and `found` stay.)
ghost use Rattle.std.specs.Prelude.{◌≡◌, ◌+◌, ◌≤◌, length};
ghost use Rattle.model.specs.Promises.{output_after};
ghost use Rattle.search.specs.Marks.{listed, ListedPart};

use crate::marking::{Marks, RUN};

// Lists the marked ones of the blocks after the first `from`, up to block `to`; n are listed already. A word is written before it is
// known whether its block is marked: while fewer than `found` are listed, a marked block is still to come and takes its place.
fn list_blocks(
    marks: &Marks,
    output: &mut [u32],
    from: usize,
    to: usize,
    listed: usize,
    found: usize,
) -> usize
    requires { (from ≤ to) × (to ≤ 65535) × (to ≤ length marks.now.bytes.now) × (found ≤ length output.old) }
    ensures { ListedPart marks.now.bytes.now found from listed output.old to result output.new }
{
    let mut n = listed;
    for passed in from..to {
        if found <= n {
            return n;
        }
        let block = passed + 1;
        output[n] = block as u32;
        if marks.is_marked(block) {
            n += 1;
        }
    }
    n
}

// The same of 64 blocks, where at least 64 more are to be listed: fewer than `found` are listed before each of the blocks. It stands beside
// `list_blocks` for speed: its loop does not test the count. Without it a search takes up to a quarter longer (two bits set, on the
// clock-like record of docs/PERFORMANCE.md). (`found` is there for the contract.)
fn list_whole_run(
    marks: &Marks,
    output: &mut [u32],
    from: usize,
    listed: usize,
    found: usize,
) -> usize
    requires { (from + 64 ≤ 65535) × (from + 64 ≤ length marks.now.bytes.now) × (listed + 64 ≤ found) × (found ≤ length output.old) }
    ensures { ListedPart marks.now.bytes.now found from listed output.old (from + 64) result output.new }
{
    let mut n = listed;
    for passed in from..from + RUN {
        let block = passed + 1;
        output[n] = block as u32;
        if marks.is_marked(block) {
            n += 1;
        }
    }
    n
}

// The same of 64 blocks, where none of them is looked at by itself if none is marked.
fn list_run(marks: &Marks, output: &mut [u32], from: usize, listed: usize, found: usize) -> usize
    requires { (from + 64 ≤ 65535) × (from + 64 ≤ length marks.now.bytes.now) × (found ≤ length output.old) }
    ensures { ListedPart marks.now.bytes.now found from listed output.old (from + 64) result output.new }
{
    if marks.none_marked(from) {
        return listed;
    }
    if listed <= found && RUN <= found - listed {
        return list_whole_run(marks, output, from, listed, found);
    }
    list_blocks(marks, output, from, from + RUN, listed, found)
}

// Lists all marked blocks, of which there are `found`. It is compiled by itself: within the search its loops would lack registers.
#[inline(never)]
pub fn list_marked(marks: &Marks, output: &mut [u32], blocks: usize, found: usize)
    requires { (blocks ≤ 65535) × (blocks ≤ length marks.now.bytes.now) × (found ≤ length output.old) × (found ≡ length (listed blocks marks.now.bytes.now)) }
    ensures { output.new ≡ output_after (listed blocks marks.now.bytes.now) output.old }
{
    let mut n = 0;
    for run in 0..blocks / RUN {
        if n >= found {
            return;
        }
        n = list_run(marks, output, run * RUN, n, found);
    }
    list_blocks(marks, output, blocks / RUN * RUN, blocks, n, found);
}

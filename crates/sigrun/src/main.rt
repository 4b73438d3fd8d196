// sigrun: serves slips from standard input on an index of 1,024 blocks, all words 0 at the start, and prints a line for each.
#![tactic(auto)]

fn main(rt: HostRuntime) {
    runner::sigrun(&mut rt.stdin(), &mut rt.stdout());
}

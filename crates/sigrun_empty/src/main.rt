// sigrun as it is, on another input: none, which prints nothing.
#![tactic(auto)]

fn main(rt: HostRuntime) {
    runner::sigrun(&mut rt.stdin(), &mut rt.stdout());
}

// sigrun as it is, on another input: random stores beside a linear scan.
#![tactic(auto)]

fn main(rt: HostRuntime) {
    runner::sigrun(&mut rt.stdin(), &mut rt.stdout());
}

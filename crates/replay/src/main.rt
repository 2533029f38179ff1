// The commands of standard input, each with its answer on standard output (docs/replay.md).
#![tactic(auto)]

fn main(rt: HostRuntime) {
    if session::run(&mut rt.stdin(), rt.stdout()).is_err() {
        let _ = rt.eprintln("replay: standard output cannot be written to");
    }
}

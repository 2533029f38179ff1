// Lists of calls as numbers, run on the bench table of document 01; of each answer its code, and what else is not 0.
#![tactic(auto)]

pub mod call;
pub mod lists;
pub mod run;

use lists::RUNS;
use std::io;

fn show(rt: &impl Print) -> io::Result<()> {
    for (k, run) in RUNS.iter().enumerate() {
        if k != 0 {
            rt.println("")?;
        }
        run.show(rt)?;
    }
    Ok(())
}

// What cannot be written is missing in the output, and the program ends as ever.
fn main(rt: HostRuntime) {
    let _ = show(&rt);
}

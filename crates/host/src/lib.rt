// For a host that links the core: a list of calls, made on the bench table of document 01.
#![tactic(auto)]

ghost use Rattle.host.specs.Hosted.{Hosted};

use batch::run::run;
use bench_table::closed;

// How many of the calls were answered.
pub fn host_run(calls: &[u32], answers: &mut [u32]) -> usize
    ensures { Hosted calls.now answers.old answers.new result }
{
    let ran = run(closed(), calls, answers);
    ran.answered
}

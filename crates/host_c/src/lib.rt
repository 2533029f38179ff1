// The archive that a host in C or Rust links: the function of crate `host`, exported under its name.
#![tactic(auto)]

ghost use Rattle.host.specs.Hosted.{Hosted};

// How many of the calls were answered.
#[unsafe(no_mangle)]
pub extern "C" fn host_run(calls: &[u32], answers: &mut [u32]) -> usize
    ensures { Hosted calls.now answers.old answers.new result }
{
    host::host_run(calls, answers)
}

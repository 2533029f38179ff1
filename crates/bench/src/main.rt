// The bench runs and the easy slips of document 01, with forced sends, priority order, extended service calls, units, chains of regions
// and bytes handed out (document 02, T-05, T-10, T-03, T-06, T-09 and T-13), through the kernel's public operations, a line for each step.
#![tactic(auto)]

pub mod areas;
pub mod calls;
pub mod chains;
pub mod entries;
pub mod forced;
pub mod handed;
pub mod names;
pub mod priority;
pub mod runs;
pub mod say;
pub mod service;
pub mod slips;
pub mod table;
pub mod units;

use areas::ask;
use calls::sections;
use say::heading;
use std::io;

fn show(rt: &impl Print) -> io::Result<()> {
    rt.println(
        "Each step with the kernel's answer; a call's word and released task are left out where there is none",
    )?;
    let table = table::closed(rt)?;
    sections(rt, table, &runs::STARRED)?;
    table::limits(rt)?;
    sections(rt, table, &runs::NUMBERS)?;
    heading(rt, "Regions")?;
    ask(rt, table, &runs::REGIONS)?;
    forced::all(rt, table)?;
    priority::all(rt)?;
    service::all(rt, table)?;
    units::all(rt)?;
    chains::all(rt)?;
    handed::all(rt)?;
    sections(rt, table, &slips::SECTIONS)
}

// What cannot be written is missing in the output, and the program ends as ever.
fn main(rt: HostRuntime) {
    let _ = show(&rt);
}

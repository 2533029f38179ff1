// Each script of examples/ that is named as an argument, under its name, as `replay` makes it.
#![tactic(auto)]

use std::rt::Files;
use std::{env, fs, io};

// A script that cannot be opened leaves its name alone in the output, and the reason on standard error.
fn show<R: Files + Print + Eprint>(rt: &R, name: &str) -> io::Result<()> {
    println!(rt; "==== {name}")?;
    match fs::open(rt, name) {
        Ok(mut script) => {
            // What could not be written is missing in the output, which the gate compares.
            let _ = session::run(&mut script, io::writer(rt));
            Ok(())
        }
        Err(error) => eprintln!(rt; "{name}: {error}"),
    }
}

// The argument before the first is the program's own name.
fn main(rt: HostRuntime) -> io::Result<()> {
    for name in env::args(&rt)?.skip(1) {
        show(&rt, name.as_str())?;
    }
    Ok(())
}

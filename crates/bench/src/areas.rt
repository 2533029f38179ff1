// The memory verdict, each with its line.
ghost use Rattle.kernel.specs.Valid.{Valid};

use crate::names::{Code, Wishes};
use kernel::state::State;
use std::io;

// A domain that asks for an area, by its base and size; and what it wishes to do there.
#[derive(Clone, Copy)]
pub struct Area(pub i32, pub u32, pub u32, pub u32);

pub fn ask(rt: &impl Print, table: State, areas: &[Area]) -> io::Result<()>
    requires { Valid table }
{
    for area in areas {
        let Area(domain, base, size, wishes) = *area;
        let code = Code(table.prb_mem(domain, base, size, wishes));
        let wishes = Wishes(wishes);
        println!(rt; "  domain {domain} asks to {wishes} at 0x{base:x}, size {size}: {code}")?;
    }
    Ok(())
}

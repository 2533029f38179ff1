// The two images that the program holds, and what is handed out of them (docs/replay.md, `get_mem`).
ghost use Rattle.kernel.specs.Valid.{Valid};

use command::mem::{HandOut, IMAGE};
use kernel::state::State;
use report::mem::Handed;
use std::io;
use std::io::Write;

// The bytes of the images come round again after so many.
const PERIOD: usize = 251;

const LARGEST_BYTE: u8 = 255;

// The code of a hand-out and the part of the image, out of the first bytes of both images: flash rises, and RAM falls.
pub fn write_hand_out<W: Write>(out: &mut W, state: State, asked: HandOut) -> io::Result<()>
    requires { Valid state }
{
    let HandOut {
        domain,
        base,
        size,
        bases,
        flash,
        ram,
    } = asked;
    let mut rising = [0u8; IMAGE];
    let mut falling = [0u8; IMAGE];
    // Measured: by `array::from_fn` and `map` a hand-out takes twice as long, and a chain over both is slower too.
    for i in 0..IMAGE {
        let risen = (i % PERIOD) as u8;
        rising[i] = risen;
        falling[i] = LARGEST_BYTE - risen;
    }
    let flash = &rising[..IMAGE.min(flash as usize)];
    let ram = &falling[..IMAGE.min(ram as usize)];
    let code = state.get_mem_code(domain, base, size, bases, flash, ram);
    let part = state.get_mem(domain, base, size, bases, flash, ram);
    writeln!(out, "{}", Handed { code, part })
}

// What the words of a call say.
ghost use Rattle.std.specs.Prelude.{◌≡◌, ◌+◌, ◌≤◌, length};
ghost use Rattle.batch.specs.Encoding.{call_words, numbers_at};

use crate::word::signed;
use access::vector::Vector;

// Words of a call: function, caller, object, word, and the four patterns of a vector. Those that a call does not use say nothing.
pub const CALL_WORDS: usize = 8;

// A call as its words say it.
#[derive(Clone, Copy)]
pub struct Numbers {
    pub(crate) function: u32,
    pub(crate) caller: i32,
    pub(crate) object: i32,
    pub(crate) word: u32,
    pub(crate) vector: Vector,
}

// The call whose words start at a place.
pub(crate) fn read(calls: &[u32], at: usize) -> Numbers
    requires { at + call_words ≤ length calls.now }
    ensures { result ≡ numbers_at calls.now at }
{
    Numbers {
        function: calls[at],
        caller: signed(calls[at + 1]),
        object: signed(calls[at + 2]),
        word: calls[at + 3],
        vector: Vector {
            normal1: calls[at + 4],
            normal2: calls[at + 5],
            management: calls[at + 6],
            reference: calls[at + 7],
        },
    }
}

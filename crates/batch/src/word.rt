// Signed numbers as words of 32 bits, in two's complement.
ghost use Rattle.std.specs.Prelude.{◌≡◌};
ghost use Rattle.std.specs.Int.{w32};
ghost use Rattle.std.proofs.Common.{to_z, of_z};

// The signed number that a word stands for.
pub fn signed(word: u32) -> i32
    ensures { result ≡ to_z w32 word }
{
    word.cast_signed()
}

// The word that stands for a signed number.
pub(crate) fn unsigned(number: i32) -> u32
    ensures { result ≡ of_z w32 number }
{
    number.cast_unsigned()
}

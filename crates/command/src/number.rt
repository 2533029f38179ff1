// Numbers as the lines write them: decimal with an optional `-`, or `0x` and hexadecimal digits of either case.
ghost use Rattle.std.specs.Prelude.{◌≡◌, ◌≤◌};
ghost use Rattle.command.specs.Numbers.{more, magnitude_of, number_of, signed_of, unsigned_of};

const DECIMAL: u32 = 10;

const HEXADECIMAL: u32 = 16;

// Why a word is no number, or none of the type that is wanted.
#[derive(Clone, Copy, Debug, PartialEq, Eq)]
pub enum NumberError {
    NoNumber,
    OutOfRange,
}

// The number that a word writes, which may be too large for each type that is wanted.
#[derive(Clone, Copy)]
pub struct Number {
    pub value: i64,
}

impl TryFrom<Number> for i32 {
    type Error = NumberError;

    ghost try_from_gives = { λ number r. r ≡ signed_of number };

    fn try_from(number: Number) -> Result<i32, NumberError> {
        i32::try_from(number.value).or(Err(NumberError::OutOfRange))
    }
}

// `-0` is 0.
impl TryFrom<Number> for u32 {
    type Error = NumberError;

    ghost try_from_gives = { λ number r. r ≡ unsigned_of number };

    fn try_from(number: Number) -> Result<u32, NumberError> {
        u32::try_from(number.value).or(Err(NumberError::OutOfRange))
    }
}

// The value with one digit more; None where that has more than 32 bits.
fn appended(value: Option<u32>, radix: u32, digit: u32) -> Option<u32>
    ensures { result ≡ more radix value digit }
{
    value?.checked_mul(radix)?.checked_add(digit)
}

// The value of a row of digits. One that is too large is still no number where another byte stands in it.
fn read_digits(text: &[u8], radix: u32) -> Result<u32, NumberError>
    requires lower_bound { 2 ≤ radix }
    requires upper_bound { radix ≤ 16 }
    ensures { result ≡ magnitude_of radix text.now }
{
    if text.is_empty() {
        return Err(NumberError::NoNumber);
    }
    let mut value = Some(0);
    for &byte in text {
        let digit = char::from(byte)
            .to_digit(radix)
            .ok_or(NumberError::NoNumber)?;
        value = appended(value, radix, digit);
    }
    value.ok_or(NumberError::OutOfRange)
}

// The number that a word writes.
pub fn read_number(text: &[u8]) -> Result<Number, NumberError>
    ensures { result ≡ number_of text.now }
{
    let value = if let Some(digits) = text.strip_prefix(b"-") {
        -i64::from(read_digits(digits, DECIMAL)?)
    } else if let Some(digits) = text.strip_prefix(b"0x") {
        i64::from(read_digits(digits, HEXADECIMAL)?)
    } else {
        i64::from(read_digits(text, DECIMAL)?)
    };
    Ok(Number { value })
}

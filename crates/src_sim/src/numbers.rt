// The numbers of a script.
ghost use Rattle.std.specs.Prelude.{◌≡◌, ◌+◌, ◌*◌, min};
ghost use Rattle.src_sim.specs.Numbers.{digit_of, most, numeral as numeral_of, number_of};
ghost use Rattle.src_sim.specs.Bases.{radix_of};

#[derive(Clone, Copy)]
pub enum Base {
    Decimal,
    Hexadecimal,
}

impl Base {
    fn radix(self) -> u32
        ensures { result ≡ radix_of self }
    {
        match self {
            Base::Decimal => 10,
            Base::Hexadecimal => 16,
        }
    }
}

// The value of a digit of the base.
fn digit_in(base: Base, byte: u8) -> Option<u32>
    ensures { result ≡ digit_of (radix_of base) byte }
{
    (byte as char).to_digit(base.radix())
}

// The number with one more digit, or the largest of 64 bits where it is larger.
fn with_digit(number: u64, base: Base, digit: u32) -> u64
    ensures { result ≡ min most (number * radix_of base + digit) }
{
    number
        .saturating_mul(u64::from(base.radix()))
        .saturating_add(u64::from(digit))
}

// The number that the digits write, or the largest of 64 bits where it is larger.
fn numeral(base: Base, digits: &[u8]) -> Option<u64>
    ensures { result ≡ numeral_of (radix_of base) digits.now }
{
    if digits.is_empty() {
        return None;
    }
    let mut number = 0u64;
    for byte in digits {
        let digit = digit_in(base, *byte)?;
        number = with_digit(number, base, digit);
    }
    Some(number)
}

// A number in decimal, or in hexadecimal after `0x`.
pub(crate) fn number(text: &str) -> Option<u64>
    ensures { result ≡ number_of text.now }
{
    let bytes = text.as_bytes();
    match bytes.strip_prefix(b"0x") {
        Some(digits) => numeral(Base::Hexadecimal, digits),
        None => numeral(Base::Decimal, bytes),
    }
}

// The number, or the largest of 32 bits where it is larger.
pub(crate) fn capped(number: u64) -> u32
    ensures { result ≡ min 4294967295 number }
{
    number.min(u64::from(u32::MAX)) as u32
}

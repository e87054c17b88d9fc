// The bytes of an image, as a script writes them.
ghost use Rattle.std.specs.Prelude.{◌≡◌};
ghost use Rattle.src_sim.specs.Bytes.{byte_of};

// The byte that two hexadecimal digits write.
pub(crate) fn byte(high: u8, low: u8) -> Option<u8>
    ensures { result ≡ byte_of high low }
{
    let high = (high as char).to_digit(16)?;
    let low = (low as char).to_digit(16)?;
    Some((16 * high + low) as u8)
}

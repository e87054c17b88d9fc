// The numbers that the commands of a script take.
ghost use Rattle.std.specs.Prelude.{◌≡◌};
ghost use Rattle.src_sim.specs.Parameters.{count_of, index_of, limited_of};

use crate::complaint::Complaint;
use crate::numbers::{capped, number};

// A number of any size: too large a one is left to the call to refuse.
pub(crate) fn count(text: &str) -> Result<u64, Complaint>
    ensures { result ≡ count_of text.now }
{
    number(text).ok_or(Complaint::NoNumber)
}

// The number of a register or of a word, or how many words.
pub(crate) fn index(text: &str) -> Result<u32, Complaint>
    ensures { result ≡ index_of text.now }
{
    Ok(capped(count(text)?))
}

// A number up to `most`.
pub(crate) fn limited(text: &str, most: u32) -> Result<u32, Complaint>
    ensures { result ≡ limited_of most text.now }
{
    let number = count(text)?;
    if number > u64::from(most) {
        return Err(Complaint::TooLarge(most));
    }
    Ok(number as u32)
}

pub(crate) fn value(text: &str) -> Result<u32, Complaint>
    ensures { result ≡ limited_of 4294967295 text.now }
{
    limited(text, u32::MAX)
}

pub(crate) fn delay(text: &str) -> Result<u8, Complaint>
    ensures { result ≡ limited_of 255 text.now }
{
    Ok(limited(text, 255)? as u8)
}

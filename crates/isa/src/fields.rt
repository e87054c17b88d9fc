// The fields of an instruction word.
ghost use Rattle.std.specs.Prelude.{◌≡◌, ◌<◌};
ghost use Rattle.isa.specs.Fields as fields;

// The fields of five bits: the operation's code and the three register numbers.
#[derive(Clone, Copy, Debug, PartialEq, Eq)]
pub enum Field {
    Op,
    Ra,
    Rb,
    Rc,
}

impl Field {
    // The field's number in the word.
    #[inline]
    pub fn of(self, word: u32) -> u8
        ensures value { result ≡ fields.field_of self word }
        ensures bound { result < 32 }
    {
        let low = match self {
            Field::Op => 27,
            Field::Ra => 22,
            Field::Rb => 17,
            Field::Rc => 12,
        };
        ((word >> low) % 32) as u8
    }
}

// The low `width` bits, as a signed number.
#[inline]
fn extended(word: u32, width: u32) -> i32
    requires sign_bit { 0 < width }
    requires narrow { width < 31 }
    ensures { result ≡ fields.extended width word }
{
    let value = word % (1 << width);
    if value < 1 << (width - 1) {
        value as i32
    } else {
        value as i32 - (1 << width)
    }
}

// The constant c1 of the word.
#[inline]
pub(crate) fn c1(word: u32) -> i32
    ensures { result ≡ fields.c1_of word }
{
    extended(word, 22)
}

// The constant c2 of the word.
#[inline]
pub(crate) fn c2(word: u32) -> i32
    ensures { result ≡ fields.c2_of word }
{
    extended(word, 17)
}

// The number in the low three bits, which says when a branch is taken.
#[inline]
pub fn when(word: u32) -> u8
    ensures { result ≡ fields.when_of word }
{
    (word % 8) as u8
}

// Kept: two constants of two widths, each by its name; one function of the width would have to refuse some.
// The constant c1 of the word, sign extended to a word.
#[inline]
pub fn c1_word(word: u32) -> u32
    ensures { result ≡ fields.word_of (fields.c1_of word) }
{
    c1(word).cast_unsigned()
}

// The constant c2 of the word, sign extended to a word.
#[inline]
pub fn c2_word(word: u32) -> u32
    ensures { result ≡ fields.word_of (fields.c2_of word) }
{
    c2(word).cast_unsigned()
}

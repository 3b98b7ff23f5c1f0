//! A word: 64 marks, each a bit.

ghost use Rattle.std.specs.Prelude.{◌≡◌, ◌<◌, length, slice_get, slice_index_or, slice_set, Some, true, false};
ghost use Rattle.number_set.specs.Numbers.{numbers_from};
ghost use Rattle.number_set.specs.Words.{word_marks};

/// So many numbers have their marks in a word.
pub const WORD_SIZE: usize = 64;

/// Whether the bit is set.
pub fn has_bit(word: u64, bit: u32) -> bool
    requires { bit < 64 }
    ensures { result ≡ slice_index_or (word_marks word) bit false }
{
    word & (1 << bit) != 0
}

/// The word with the bit set.
pub fn with_bit(word: u64, bit: u32) -> u64
    requires { bit < 64 }
    ensures { word_marks result ≡ slice_set (word_marks word) bit true }
{
    word | (1 << bit)
}

/// The word with the bit clear.
pub fn without_bit(word: u64, bit: u32) -> u64
    requires { bit < 64 }
    ensures { word_marks result ≡ slice_set (word_marks word) bit false }
{
    word & !(1 << bit)
}

/// The bit that so many that are set stand before.
pub fn bit_behind(word: u64, before: u32) -> u32
    requires { before < length (numbers_from 0 (word_marks word)) }
    ensures bit { slice_get (numbers_from 0 (word_marks word)) before ≡ Some result }
    ensures within { result < 64 }
{
    let lowest = word.trailing_zeros();
    if before == 0 {
        lowest
    } else {
        bit_behind(without_bit(word, lowest), before - 1)
    }
}

//! Words that a text begins with. A `starts_with` is a call for each, and two arrays of more than eight bytes are compared byte by
//! byte where several words are looked for.

ghost use Rattle.std.specs.Prelude.{◌≡◌, ◌≤◌, ◌+◌, ◌==◌, ◌++◌, IsTrue, drop, length};
ghost use Rattle.std.specs.Int.{w32, w64, to_le_bytes};
ghost use Rattle.std.specs.List.{starts_with};

/// Whether the text begins with these eight bytes and with others behind them. The eight are compared as one number, which is
/// read once for all words.
#[inline(always)]
pub fn begins<const N: usize>(text: &[u8], first: &[u8; 8], others: &[u8; N]) -> bool
    ensures value { result ≡ starts_with ◌==◌ text.now (first.now ++ others.now) }
    ensures stands { IsTrue result → text.now ≡ first.now
        ++ (others.now ++ drop (8 + length others.now) text.now) }
    ensures bound { IsTrue result → 8 + length others.now ≤ length text.now }
{
    match text.first_chunk::<8>() {
        Some(there) => {
            let found = eight(*there);
            let wanted = eight(*first);
            found == wanted && follows(&text[8..], others)
        }
        None => false,
    }
}

/// The same of four bytes and others, for a word of less than eight.
#[inline(always)]
pub fn begins_short<const N: usize>(text: &[u8], first: &[u8; 4], others: &[u8; N]) -> bool
    ensures value { result ≡ starts_with ◌==◌ text.now (first.now ++ others.now) }
    ensures stands { IsTrue result → text.now ≡ first.now
        ++ (others.now ++ drop (4 + length others.now) text.now) }
    ensures bound { IsTrue result → 4 + length others.now ≤ length text.now }
{
    match text.first_chunk::<4>() {
        Some(there) => {
            let found = four(*there);
            let wanted = four(*first);
            found == wanted && follows(&text[4..], others)
        }
        None => false,
    }
}

#[inline(always)]
fn follows<const N: usize>(text: &[u8], others: &[u8; N]) -> bool
    ensures value { result ≡ starts_with ◌==◌ text.now others.now }
    ensures stands { IsTrue result → text.now ≡ others.now ++ drop (length others.now) text.now }
    ensures bound { IsTrue result → length others.now ≤ length text.now }
{
    match text.first_chunk::<N>() {
        Some(there) => *there == *others,
        None => false,
    }
}

/// Bytes as one number, which tells them apart from any others.
#[inline(always)]
fn eight(bytes: [u8; 8]) -> u64
    ensures { to_le_bytes w64 result ≡ bytes }
{
    u64::from_le_bytes(bytes)
}

#[inline(always)]
fn four(bytes: [u8; 4]) -> u32
    ensures { to_le_bytes w32 result ≡ bytes }
{
    u32::from_le_bytes(bytes)
}

//! Whole numbers, by their texts.

ghost use Rattle.std.specs.Prelude.{◌≡◌, Some};
ghost use Rattle.connection_messages.specs.Numbers.{unsigned_of, has_lead, negative_of, negated, small_of, integer_of};

/// The number that the text is the decimal of. Without a lead each numeral is the decimal of its number, so the number isn't
/// written again to be compared.
pub(crate) fn unsigned(text: &str) -> Option<u64>
    ensures { result ≡ unsigned_of text.now }
{
    if has_lead(text.as_bytes()) {
        return None;
    }
    text.parse::<u64>().ok()
}

/// Whether a plus or a 0 stands before more, which `parse` passes over and no decimal has.
fn has_lead(text: &[u8]) -> bool
    ensures { result ≡ has_lead text.now }
{
    text.len() > 1 && (text[0] == b'0' || text[0] == b'+')
}

/// The number below 0 that the text is the decimal of.
pub(crate) fn negative(text: &str) -> Option<i64>
    ensures { result ≡ negative_of text.now }
{
    let digits = text.strip_prefix('-')?;
    negate(unsigned(digits)?)
}

fn negate(number: u64) -> Option<i64>
    ensures { result ≡ negated (Some number) }
{
    if number == 0 || number > 1 << 63 {
        return None;
    }
    Some(-1 - (number - 1) as i64)
}

/// The number that the text is the decimal of.
pub(crate) fn integer(text: &str) -> Option<i64>
    ensures { result ≡ integer_of text.now }
{
    match negative(text) {
        Some(number) => Some(number),
        None => small(unsigned(text)?),
    }
}

fn small(number: u64) -> Option<i64>
    ensures { result ≡ small_of (Some number) }
{
    if number < 1 << 63 {
        Some(number as i64)
    } else {
        None
    }
}

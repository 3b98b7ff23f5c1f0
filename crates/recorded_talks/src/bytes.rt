//! Bytes by their hexadecimal digits.

ghost use Rattle.std.specs.Prelude.{◌≡◌, ◌<◌, Some, None, IfOk, IfErr, IfSome};
ghost use Rattle.recorded_talks.specs.declared.fault.LineFault.TheVariants.{Unreadable};
ghost use Rattle.recorded_talks.specs.Digits.{digit_of, byte_of, bytes_of};

use crate::fault::LineFault;
use std::alloc::Global;

/// The bytes that these digits say, two digits each.
pub(crate) fn bytes_of(alloc: Global, digits: &[u8]) -> Result<Vec<u8>, LineFault>
    ensures bytes { IfOk result (λ bytes. bytes_of digits.now ≡ Some bytes.items) }
    ensures none { IfErr result (λ fault. fault ≡ Unreadable → bytes_of digits.now ≡ None) }
{
    let mut bytes = Vec::new(alloc);
    let mut left = digits;
    while let [high, low, behind @ ..] = left {
        bytes.push(byte_of(*high, *low).ok_or(LineFault::Unreadable)?)?;
        left = behind;
    }
    if left.is_empty() {
        Ok(bytes)
    } else {
        Err(LineFault::Unreadable)
    }
}

fn byte_of(high: u8, low: u8) -> Option<u8>
    ensures { result ≡ byte_of high low }
{
    let high = digit_of(high)?;
    let low = digit_of(low)?;
    Some(high * 16 + low)
}

fn digit_of(digit: u8) -> Option<u8>
    ensures digit { result ≡ digit_of digit }
    ensures small { IfSome result (λ it. it < 16) }
{
    match digit {
        b'0'..=b'9' => Some(digit - b'0'),
        b'a'..=b'f' => Some(digit - b'a' + 10),
        b'A'..=b'F' => Some(digit - b'A' + 10),
        _ => None,
    }
}

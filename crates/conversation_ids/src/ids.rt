ghost use Rattle.std.specs.Prelude.{◌≡◌};
ghost use Rattle.conversation_rules.specs.Amounts.{amount_of, same_amount, same_id, is_odd, is_null};

use crate::amounts::{is_plain, same_amount};
use conversation_reading::WrittenId;

/// Whether two ids are equal as values: `1.0` is `1`, and `"1"` isn't (JSON-RPC 2.0, section 4).
pub fn same_id(a: &WrittenId, b: &WrittenId) -> bool
    ensures { result ≡ same_id a.now b.now }
{
    match (a, b) {
        (WrittenId::Null, WrittenId::Null) => true,
        (WrittenId::Text(a), WrittenId::Text(b)) => a == b,
        (WrittenId::Number(a), WrittenId::Number(b)) => same_number(a.as_str(), b.as_str()),
        _ => false,
    }
}

/// Whether two numbers have one value. Most ids come back as they were written.
fn same_number(a: &str, b: &str) -> bool
    ensures { result ≡ same_amount (amount_of a.now) (amount_of b.now) }
{
    a == b || same_amount(a, b)
}

/// Whether an id is a number that isn't plain: a peer may refuse it.
pub fn is_odd(id: &WrittenId) -> bool
    ensures { result ≡ is_odd id.now }
{
    match id {
        WrittenId::Number(number) => !is_plain(number.as_str()),
        _ => false,
    }
}

pub fn is_null(id: &WrittenId) -> bool
    ensures { result ≡ is_null id.now }
{
    matches!(id, WrittenId::Null)
}

//! Numbers that aren't whole, by their value.

ghost use Rattle.std.specs.Prelude.{◌≡◌};
ghost use Rattle.std.specs.List.{list_any};
ghost use Rattle.conversation_rules.specs.Amounts.{amount_of, same_amount};

use crate::amounts::same_amount;
use json_values::Text;

/// Whether a number is among others.
pub(crate) fn is_among(number: &str, others: &[Text]) -> bool
    ensures { result ≡ list_any (λ other. same_amount (amount_of number.now) (amount_of other)) others.now }
{
    others
        .iter()
        .any(|other| same_amount(number, other.as_str()))
}

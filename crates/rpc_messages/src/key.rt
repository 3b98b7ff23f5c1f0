//! Keys: the ids of our calls.

ghost use Rattle.std.specs.Prelude.{◌≡◌, ◌↔◌, ℕ, List, IfOk, Some, string_bytes};
ghost use Rattle.rpc_messages.specs.declared.key.TheConstants.{MOST_NUMBERS, MOST_TURNS};
ghost use Rattle.rpc_messages.specs.Key.{key_text, key_of, decimal_number as number_of, IsKeyOf};

use itoa::Buffer;
use std::alloc::{AllocError, Global};

/// The greatest number of a handler.
pub const MOST_NUMBERS: u32 = 1_000_000;

/// The greatest turn of a handler's call.
pub const MOST_TURNS: u32 = 1_024;

/// The id of call `turn` of the handler `number`, as `12.3`.
pub fn call_key(alloc: Global, number: u32, turn: u32) -> Result<String, AllocError>
    ensures { IfOk result (λ key. string_bytes key ≡ key_text number turn) }
{
    format!(in alloc; "{number}.{turn}")
}

/// The handler's number, 0 to 1,000,000, and the turn, 1 to 1,024, that the text is the key of. Takes no memory.
pub fn read_key(text: &str) -> Option<(u32, u32)>
    ensures { result ≡ key_of text.now }
{
    let (number, turn) = text.split_once('.')?;
    let number = decimal_number(number, MOST_NUMBERS)?;
    let turn = decimal_number(turn, MOST_TURNS)?;
    if turn == 0 {
        None
    } else {
        Some((number, turn))
    }
}

fn decimal_number(text: &str, most: u32) -> Option<u32>
    ensures { result ≡ number_of most text.now }
{
    let number = text.parse::<u32>().ok()?;
    let mut buffer = Buffer::new();
    if number <= most && buffer.format(number) == text {
        Some(number)
    } else {
        None
    }
}

/// A text is read as a key exactly where it is that key.
pub fn keys_are_what_is_written()
    ensures { (text : List ℕ) (n t : ℕ) → (key_of text ≡ Some (n, t)) ↔ IsKeyOf text n t }
{}

/// The limits of keys, in figures. All other definitions and clauses cite the constants.
pub fn limits_of_keys_in_figures()
    ensures { (MOST_NUMBERS ≡ 1000000) × (MOST_TURNS ≡ 1024) }
{}

//! The rules for names and pointers.

ghost use Rattle.std.specs.Prelude.{◌≡◌, ◌==◌, ◌||◌, slice_index};
ghost use Rattle.std.specs.List.{list_all};
ghost use Rattle.method_templates.specs.Names.{is_name_length, is_method_name, is_register_byte, is_register_rest, is_register_name, is_taken, is_escaped};

use crate::limits::{LONGEST_NAME, LONGEST_REGISTER};

/// Whether a method of the other side may have a name of that length.
pub fn is_name_length(length: usize) -> bool
    ensures { result ≡ is_name_length length }
{
    1 <= length && length <= LONGEST_NAME
}

/// Whether a method of the table may have the name.
pub fn is_method_name(name: &str) -> bool
    ensures { result ≡ is_method_name name.now }
{
    let bytes = name.as_bytes();
    is_name_length(name.len()) && !bytes.starts_with(b"rpc.") && !bytes.starts_with(b"$/")
}

/// Whether a step may set a register of that name.
pub fn is_register_name(name: &str) -> bool
    ensures { result ≡ is_register_name name.now }
{
    let [first, rest @ ..] = name.as_bytes() else {
        return false;
    };
    first.is_ascii_lowercase() && is_register_rest(rest) && !is_taken(name)
}

/// Whether these may follow the first letter of a register's name.
fn is_register_rest(bytes: &[u8]) -> bool
    ensures { result ≡ is_register_rest bytes.now }
{
    bytes.len() < LONGEST_REGISTER && are_register_bytes(bytes)
}

fn are_register_bytes(bytes: &[u8]) -> bool
    ensures { result ≡ list_all is_register_byte bytes.now }
{
    bytes.iter().all(is_register_byte)
}

/// Whether the name means something else in a template.
fn is_taken(name: &str) -> bool
    ensures { result ≡ is_taken name.now }
{
    name == "params" || name == "null"
}

fn is_register_byte(byte: &u8) -> bool
    ensures { result ≡ is_register_byte byte.now }
{
    byte.is_ascii_lowercase() || byte.is_ascii_digit() || *byte == b'_'
}

/// Whether each `~` is followed by `0` or `1` (RFC 6901, section 3).
pub fn is_escaped(pointer: &str) -> bool
    ensures { result ≡ is_escaped pointer.now }
{
    let bytes = pointer.as_bytes();
    for (place, byte) in bytes.iter().enumerate() {
        if *byte == b'~' && !begins_with_0_or_1(&bytes[place + 1..]) {
            return false;
        }
    }
    true
}

fn begins_with_0_or_1(bytes: &[u8]) -> bool
    ensures { result ≡ (slice_index bytes.now 0 == 48 || slice_index bytes.now 0 == 49) }
{
    match bytes {
        [first, ..] => *first == b'0' || *first == b'1',
        [] => false,
    }
}

//! Texts in one array (JSON-RPC 2.0, section 6).

ghost use Rattle.std.specs.Prelude.{◌≡◌, ◌<◌, ◌++◌, [], ℕ, List, OnOk, OnErr, if◌then◌else◌, codes, get_or, length, nat_lt};
ghost use Rattle.std.specs.Io.{StartsWith};
ghost use Rattle.message_texts.specs.Texts.{batch_text};

use crate::room::whole_or_unchanged;
use std::alloc::{AllocError, Global};

/// The entries of a batch, whose texts are written one at a time.
pub trait Entries {
    /// Their texts, in their order.
    ghost texts: { Self → List (List ℕ) };

    /// What is known of an entry at that place once it is written.
    ghost known: { Self → ℕ → Type 0 };

    /// How many there are.
    fn len(&self) -> usize
        ensures { result ≡ length (texts self.now) };

    /// Writes the text of one entry.
    fn write_entry(
        &self,
        alloc: Global,
        bytes: &mut Vec<u8>,
        place: usize,
    ) -> Result<(), AllocError>
        requires { place < length (texts self.now) }
        ensures text { OnOk result (bytes.new.items ≡
            bytes.old.items ++ get_or (texts self.now) place []) }
        ensures known { OnOk result (known self.now place) }
        ensures err { OnErr result (bytes.new.items ≡ bytes.old.items) };
}

/// Writes one array of the entries' texts.
pub fn write_array<E: Entries>(
    alloc: Global,
    bytes: &mut Vec<u8>,
    entries: &E,
) -> Result<(), AllocError>
    ensures text { OnOk result (bytes.new.items ≡
        bytes.old.items ++ batch_text (E.texts entries.now)) }
    ensures known { OnOk result ((place : ℕ) → place < length (E.texts entries.now) →
        E.known entries.now place) }
    ensures err { OnErr result (bytes.new.items ≡ bytes.old.items) }
{
    let before = bytes.len();
    let put = put_array(alloc, bytes, entries);
    whole_or_unchanged(bytes, before, put)
}

fn put_array<E: Entries>(alloc: Global, bytes: &mut Vec<u8>, entries: &E) -> Result<(), AllocError>
    ensures text { OnOk result (bytes.new.items ≡
        bytes.old.items ++ batch_text (E.texts entries.now)) }
    ensures known { OnOk result ((place : ℕ) → place < length (E.texts entries.now) →
        E.known entries.now place) }
    ensures front { OnErr result (StartsWith bytes.new.items bytes.old.items) }
{
    bytes.push(b'[')?;
    for place in 0..entries.len() {
        put_entry(alloc, bytes, entries, place)?;
    }
    bytes.extend_from_slice(b"]")
}

/// Puts one entry, with a comma before it where it isn't the first.
fn put_entry<E: Entries>(
    alloc: Global,
    bytes: &mut Vec<u8>,
    entries: &E,
    place: usize,
) -> Result<(), AllocError>
    requires { place < length (E.texts entries.now) }
    ensures text { OnOk result (bytes.new.items ≡
        bytes.old.items ++ (if nat_lt 0 place then codes "," else []) ++ get_or (E.texts entries.now) place []) }
    ensures known { OnOk result (E.known entries.now place) }
    ensures front { OnErr result (StartsWith bytes.new.items bytes.old.items) }
{
    if place > 0 {
        bytes.push(b',')?;
    }
    entries.write_entry(alloc, bytes, place)
}

//! The names of members.

ghost use Rattle.std.specs.Prelude.{◌≡◌, ◌<◌, ◌≤◌, ◌+◌, ◌∷◌, ◌++◌, ℕ, List, [], drop, length, IfOk, IfSome, OnOk, IsTrue};
ghost use Rattle.json.specs.Lex.{token, colon};
ghost use Rattle.json.specs.Token.{string};
ghost use Rattle.rpc_messages.specs.Held.{name_of};
ghost use Rattle.value_reading.specs.Lexed.{Lexed};

use json_texts::{begins, begins_short};
use value_reading::Unread;

/// Which of the names that count for a message a member has.
#[derive(Clone, Copy)]
pub(super) enum Name {
    /// `jsonrpc`.
    Version,
    Method,
    Params,
    Id,
    Result,
    Error,
    /// One that doesn't count.
    Other,
}

impl Name {
    pub(super) fn of(name: &str) -> Name
        ensures { result ≡ name_of name.now }
    {
        match name {
            "jsonrpc" => Name::Version,
            "method" => Name::Method,
            "params" => Name::Params,
            "id" => Name::Id,
            "result" => Name::Result,
            "error" => Name::Error,
            _ => Name::Other,
        }
    }
}

/// Passes the name of a member, which has no escape, with its colon. A name that a message mostly has is told by its
/// bytes, so that no search for its end is made.
#[inline(always)]
pub(super) fn read_name(text: &str, at: &mut usize) -> Result<Name, Unread>
    ensures name { IfOk result (λ name. (s : List ℕ)
        × Lexed text.now at.old (token (string s) ∷ colon ∷ []) at.new × (name_of s ≡ name)) }
    ensures bounds { OnOk result ((at.old < at.new) × (at.new ≤ length text.now)) }
{
    match known_name(text.as_bytes(), *at) {
        Some((name, end)) => {
            *at = end;
            Ok(name)
        }
        None => read_other(text, at),
    }
}

/// Apart, since few names aren't known or have blanks behind them.
#[inline(never)]
fn read_other(text: &str, at: &mut usize) -> Result<Name, Unread>
    ensures name { IfOk result (λ name. (s : List ℕ)
        × Lexed text.now at.old (token (string s) ∷ colon ∷ []) at.new × (name_of s ≡ name)) }
    ensures bounds { OnOk result ((at.old < at.new) × (at.new ≤ length text.now)) }
{
    let name = value_reading::read_name(text, at)?;
    Ok(Name::of(name))
}

/// The name whose quote stands there, where it is one that a message mostly has and its colon stands right behind it,
/// and its end.
#[inline(always)]
fn known_name(text: &[u8], at: usize) -> Option<(Name, usize)>
    ensures name { IfSome result (λ found. (s : List ℕ)
        × Lexed text.now at (token (string s) ∷ colon ∷ []) found.1 × (name_of s ≡ found.0)) }
    ensures bounds { IfSome result (λ found. (at < found.1) × (found.1 ≤ length text.now)) }
{
    if at > text.len() {
        return None;
    }
    let rest = &text[at..];
    if begins(rest, b"\"jsonrpc", b"\":") {
        return Some((Name::Version, at + 10));
    }
    if begins(rest, b"\"method\"", b":") {
        return Some((Name::Method, at + 9));
    }
    if begins(rest, b"\"params\"", b":") {
        return Some((Name::Params, at + 9));
    }
    if begins(rest, b"\"result\"", b":") {
        return Some((Name::Result, at + 9));
    }
    if begins_short(rest, b"\"id\"", b":") {
        return Some((Name::Id, at + 5));
    }
    None
}

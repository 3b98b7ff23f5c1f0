//! The version of a message.

ghost use Rattle.std.specs.Prelude.{◌≡◌, option_map};
ghost use Rattle.json_reading.specs.Piece.{piece_view};
ghost use Rattle.rpc_messages.specs.Call.{is_version_2};

use json_reading::Piece;

/// Whether the member `jsonrpc` is exactly "2.0".
pub(super) fn is_version_2(version: &Option<Piece<'_>>) -> bool
    ensures { result ≡ is_version_2 (option_map piece_view version.now) }
{
    match version {
        Some(version) => match version.as_str() {
            Some(text) => text == "2.0",
            None => false,
        },
        None => false,
    }
}

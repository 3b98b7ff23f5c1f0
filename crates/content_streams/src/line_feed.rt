ghost use Rattle.std.specs.Prelude.{◌≡◌, position};
ghost use Rattle.content_streams.specs.Lines.{is_lf};
ghost use Rattle.memchr.specs.Find.{IsFirstByte};

use memchr::memchr;

/// Where the first LF stands.
pub(crate) fn place_of_lf(bytes: &[u8]) -> Option<usize>
    ensures first { IsFirstByte is_lf bytes.now result }
    ensures position { result ≡ position is_lf bytes.now }
{
    memchr(b'\n', bytes)
}

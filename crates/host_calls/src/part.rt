//! The texts that a host passes lie one behind the other.

ghost use Rattle.std.specs.Prelude.{◌≡◌, take, drop};

/// A name and a text, and the bytes behind them.
#[derive(Clone, Copy)]
pub(crate) struct Part<'a> {
    pub(crate) name: &'a [u8],
    pub(crate) text: &'a [u8],
    pub(crate) behind: &'a [u8],
}

impl<'a> Part<'a> {
    pub(crate) fn cut(bytes: &'a [u8], name: usize, text: usize) -> Part<'a>
        ensures name { result.name.now ≡ take name bytes.now }
        ensures text { result.text.now ≡ take text (drop name bytes.now) }
        ensures behind { result.behind.now ≡ drop text (drop name bytes.now) }
    {
        let (name, more) = cut(bytes, name);
        let (text, behind) = cut(more, text);
        Part { name, text, behind }
    }
}

/// The first bytes, as many as there are up to this number, and the others.
fn cut(bytes: &[u8], count: usize) -> (&[u8], &[u8])
    ensures first { result.0.now ≡ take count bytes.now }
    ensures behind { result.1.now ≡ drop count bytes.now }
{
    bytes.split_at(count.min(bytes.len()))
}

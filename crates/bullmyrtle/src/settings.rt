//! What a new one is made with.

ghost use Rattle.std.specs.Prelude.{◌≡◌};
ghost use Rattle.bullmyrtle.specs.Made.{framing_of, order_of, cancels_of, flag_of, entries_of, chosen_by};

use connection::{Cancels, Framing, Order, USUAL_CONTENT};

/// What `bm_open` makes one with, as C has it.
#[repr(C)]
#[derive(Clone, Copy)]
pub struct Options {
    /// How many bytes the host takes the struct for. A later library may have a longer one.
    pub size: u32,
    pub framing: u32,
    pub order: u32,
    pub cancels: u32,
    pub broken: u32,
    pub content: u32,
    pub calls: u64,
    pub entries: u32,
    pub null_params: u32,
}

/// How many bytes the options have.
const OPTIONS_SIZE: u32 = 40;

/// How many entries a batch may have where nothing is said. It is meant to be more than any program says at once, and few
/// enough that a host has room for them: a content of 16 MiB may have eight million.
const USUAL_ENTRIES: u64 = 100_000;

impl Options {
    /// The connection's own settings, where there are such. A limit of 0 is the usual one.
    pub(crate) fn chosen(&self) -> Option<connection::Settings>
        ensures { result ≡ chosen_by self.now }
    {
        if self.size != OPTIONS_SIZE {
            return None;
        }
        let framing = framing_of(self.framing)?;
        let order = order_of(self.order)?;
        let cancels = cancels_of(self.cancels)?;
        let tells_broken = flag_of(self.broken)?;
        let null_params = flag_of(self.null_params)?;
        let content = if self.content == 0 {
            USUAL_CONTENT
        } else {
            self.content
        };
        let calls = if self.calls == 0 {
            u64::MAX
        } else {
            self.calls
        };
        let settings = connection::Settings::new(framing, order, cancels, content, calls)?
            .with_most_entries(entries_of(self.entries))
            .with_null_params(null_params);
        Some(if tells_broken {
            settings.telling_broken()
        } else {
            settings
        })
    }
}

fn framing_of(framing: u32) -> Option<Framing>
    ensures { result ≡ framing_of framing }
{
    match framing {
        0 => Some(Framing::Frames),
        1 => Some(Framing::Lines),
        2 => Some(Framing::Contents),
        _ => None,
    }
}

fn order_of(order: u32) -> Option<Order>
    ensures { result ≡ order_of order }
{
    match order {
        0 => Some(Order::AsAnswered),
        1 => Some(Order::AsCame),
        _ => None,
    }
}

fn cancels_of(cancels: u32) -> Option<Option<Cancels>>
    ensures { result ≡ cancels_of cancels }
{
    match cancels {
        0 => Some(None),
        1 => Some(Some(Cancels::Lsp)),
        2 => Some(Some(Cancels::Mcp)),
        _ => None,
    }
}

/// How many entries a batch may have: where nothing is said so many as are usual, and at the greatest number any.
fn entries_of(entries: u32) -> Option<u64>
    ensures { result ≡ entries_of entries }
{
    match entries {
        0 => Some(USUAL_ENTRIES),
        u32::MAX => None,
        most => Some(most as u64),
    }
}

fn flag_of(flag: u32) -> Option<bool>
    ensures { result ≡ flag_of flag }
{
    match flag {
        0 => Some(false),
        1 => Some(true),
        _ => None,
    }
}

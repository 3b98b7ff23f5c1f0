//! An event as C has it.

ghost use Rattle.std.specs.Prelude.{◌≡◌};
ghost use Rattle.host_calls.specs.Hosting.{lent_as};

use crate::event::EventTexts;

/// An event's head, as C has it.
#[repr(C)]
#[derive(Clone, Copy)]
pub struct EventHead {
    /// What it tells, from 1 on.
    pub kind: u32,
    /// A mark of this kind: a request, an error, why the input is over, or what is broken.
    pub flags: u32,
    /// The number of a call, or the place of a broken content.
    pub number: u64,
    /// The key of a call of ours, or the first invalid entry.
    pub key: u64,
    /// The code of an error, or how many entries are invalid.
    pub code: i64,
    /// How many bytes its texts have.
    pub name_len: usize,
    pub text_len: usize,
    pub id_len: usize,
}

/// Where there is no event.
pub const NO_HEAD: EventHead = EventHead {
    kind: 0,
    flags: 0,
    number: 0,
    key: 0,
    code: 0,
    name_len: 0,
    text_len: 0,
    id_len: 0,
};

/// An event as C has it: its head, and where its texts lie.
#[repr(C)]
#[derive(Drop)]
pub struct LentEvent {
    pub head: EventHead,
    pub name: *const u8,
    pub text: *const u8,
    pub id: *const u8,
}

impl LentEvent {
    /// With this head, of these texts.
    pub(crate) fn new(head: EventHead, texts: &EventTexts) -> LentEvent
        ensures { result ≡ lent_as head texts.now }
    {
        LentEvent {
            head,
            name: texts.name.as_ptr(),
            text: texts.text.as_ptr(),
            id: texts.id.as_ptr(),
        }
    }
}

//! What is owed on a content that stands in a window. Its own is put back in the place of a stand-in, which takes no memory.

ghost use Rattle.std.specs.Prelude.{◌≡◌, OnOk, OnErr};
ghost use Rattle.conversation_ids.specs.Ways.{fits};
ghost use Rattle.conversation_contents.specs.Settled.{IsSettledAt, and_owed, and_removed, place_at};
ghost use Rattle.conversation_rules.specs.Dues.{cancelled_in};
ghost use Rattle.number_windows.specs.Numbered.{at, changed_at};
ghost use Rattle.number_windows.specs.Windows.{window_entries, IsWindow};

use conversation_contents::{Due, Settled};
use conversation_ids::{Owed, Way};
use conversation_reading::WrittenId;
use number_windows::NumberWindow;
use std::alloc::{AllocError, Global};

/// One more entry of a content.
pub(crate) fn push_at(
    alloc: Global,
    dues: &mut NumberWindow<Due>,
    number: u64,
    owed: Owed,
) -> Result<(), AllocError>
    requires { IsWindow dues.old }
    ensures ok { OnOk result (window_entries dues.new ≡ changed_at number (and_owed owed) (window_entries dues.old)) }
    ensures err { OnErr result (window_entries dues.new ≡ window_entries dues.old) }
    ensures window { IsWindow dues.new }
{
    match dues.replace(number, stand_in(alloc)) {
        Ok(mut due) => {
            let pushed = due.push(owed);
            drop(dues.replace(number, due));
            pushed
        }
        Err(_) => Ok(()),
    }
}

/// Takes the first entry off a content that fits, and tells of it.
pub(crate) fn take_at(
    alloc: Global,
    dues: &mut NumberWindow<Due>,
    number: u64,
    way: Way,
    id: &WrittenId,
) -> Option<Settled>
    requires { IsWindow dues.old }
    ensures settled { IsSettledAt (at number (window_entries dues.old))
        (place_at (fits way id.now) (at number (window_entries dues.old))) result }
    ensures entries { window_entries dues.new ≡
        changed_at number (and_removed (place_at (fits way id.now) (at number (window_entries dues.old)))) (window_entries dues.old) }
    ensures window { IsWindow dues.new }
{
    match dues.replace(number, stand_in(alloc)) {
        Ok(mut due) => {
            let settled = due.take_first(alloc, way, id);
            drop(dues.replace(number, due));
            settled
        }
        Err(_) => None,
    }
}

/// A cancel of the requests of a content with this id was seen.
pub(crate) fn cancel_at(
    alloc: Global,
    dues: &mut NumberWindow<Due>,
    number: u64,
    id: &WrittenId,
    settles: bool,
)
    requires { IsWindow dues.old }
    ensures entries { window_entries dues.new ≡ changed_at number (cancelled_in settles id.now) (window_entries dues.old) }
    ensures window { IsWindow dues.new }
{
    if let Ok(mut due) = dues.replace(number, stand_in(alloc)) {
        due.cancel(id, settles);
        drop(dues.replace(number, due));
    }
}

fn stand_in(alloc: Global) -> Due {
    Due::new(alloc, 0, 0, false, false)
}

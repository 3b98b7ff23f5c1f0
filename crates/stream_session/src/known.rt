//! The laws of a session's state, together.

ghost use Rattle.stream_session.specs.Inner.Known.{Known};

use peer_events::{
    each_turn_is_one_poll, events_keep_standing, polls_of_a_done_session_are_few,
    what_stands_is_an_output,
};

/// All that the laws of a session stand on.
pub(crate) fn known()
    ensures { Known }
{
    events_keep_standing();
    what_stands_is_an_output();
    each_turn_is_one_poll();
    polls_of_a_done_session_are_few();
}

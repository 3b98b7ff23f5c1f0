//! What a connection has done, from the bytes that came to those that went out. Each law is the contract of a function that
//! does nothing.

ghost use Rattle.std.specs.Prelude.{◌≡◌, ◌≤◌, ◌⊎◌, ℕ, List, map, take, Option, Some};
ghost use Rattle.connection_messages.specs.ReadBack.{AreParams};
ghost use Rattle.connection_messages.specs.declared.call.Call.{Call};
ghost use Rattle.connection_history.specs.declared.event.Event.{Event};
ghost use Rattle.connection_history.specs.History.{Happening, History, stream};
ghost use Rattle.connection_history.specs.Stream.{call_numbered};
ghost use Rattle.connection_history.specs.Refusals.{refusal};
ghost use Rattle.connection_history.specs.declared.refused.Refused.{Refused};
ghost use Rattle.content_streams.specs.Streams.{contents_of, plain};
ghost use Rattle.content_streams.specs.declared.ending.HowEnded.{HowEnded};
ghost use Rattle.outbox.specs.Output.{full_count};
ghost use Rattle.connection.specs.BackToBack.{AreLines, text_of, messages_of, NoCancelNoticed, AreFirst, AllFit, AllWithin, IsEndedWhole, whole_count, AreJoined, Understands};
ghost use Rattle.connection.specs.Connections.{Connection as Seen, IsDone, IsRefusal, StandsAfter, output};
ghost use Rattle.connection.specs.Conversations.{IsConversation, IsConversationCutShort};
ghost use Rattle.connection.specs.Reports.{report_of};
ghost use Rattle.connection.specs.Rules.{KeepsRules, IsExcused, IsDeep, IsToldNull};

use connection_history::what_the_rules_allow_is_not_refused;
use connection_messages::{
    a_batch_of_answers_reads_back, a_batch_of_calls_reads_back, a_call_reads_back,
    a_notification_reads_back, a_withdrawal_reads_back, an_answer_reads_back,
    each_text_is_one_line,
};
use content_streams::frames_are_those_of_the_bytes;
use lsp_frames::{
    contents_are_a_function_of_the_bytes, front_is_a_frame, front_shows_a_fault,
    no_frame_extends_another, written_frame_is_read_back,
};

/// A connection that is done has had a whole conversation; any other has had one as far as it has come.
pub fn a_connection_has_a_conversation()
    ensures whole { (connection : Seen) (history : History) (told : List Event) →
        StandsAfter connection history told → IsDone connection history told →
        IsConversation connection.settings connection.stream history told (output connection)
        (report_of connection.settings.order history) }
    ensures cut_short { (connection : Seen) (history : History) (told : List Event) →
        StandsAfter connection history told →
        IsConversationCutShort connection.settings connection.stream history told (output connection)
        (report_of connection.settings.order history) }
{}

/// All that is written are the texts of the messages that were said, in their order. None has a line feed. Their bytes, cut
/// as the framing says, have just these texts as contents; a front of the bytes has those that are whole in it.
pub fn contents_of_what_is_written_are_its_texts()
    ensures texts { (connection : Seen) (history : History) (told : List Event) →
        StandsAfter connection history told →
        (output connection).written ≡ map text_of (messages_of connection.settings.order history) }
    ensures lines { (connection : Seen) (history : History) (told : List Event) →
        StandsAfter connection history told → AreLines (output connection).written }
    ensures whole { (connection : Seen) (history : History) (told : List Event) (limit : ℕ)
        (pieces : List (List ℕ)) (ended : Option HowEnded) →
        StandsAfter connection history told → AllFit limit (output connection).written →
        (n : ℕ) → full_count connection.settings.framing (output connection).written ≤ n →
        AreFirst connection.settings.framing n (output connection).written pieces →
        contents_of connection.settings.framing limit pieces ended
        ≡ map plain (output connection).written }
    ensures front { (connection : Seen) (history : History) (told : List Event) (limit : ℕ)
        (pieces : List (List ℕ)) (ended : Option HowEnded) →
        StandsAfter connection history told → AllFit limit (output connection).written →
        (n : ℕ) → IsEndedWhole connection.settings.framing n (output connection).written ended →
        AreFirst connection.settings.framing n (output connection).written pieces →
        contents_of connection.settings.framing limit pieces ended
        ≡ map plain (take (whole_count connection.settings.framing n (output connection).written)
        (output connection).written) }
{
    each_text_is_one_line();
    front_is_a_frame();
    front_shows_a_fault();
    no_frame_extends_another();
    written_frame_is_read_back();
    contents_are_a_function_of_the_bytes();
    frames_are_those_of_the_bytes();
}

/// Where what one connection wrote, or a front of it, is what another was fed, the units that came to the other are just the
/// calls, batches, notifications, withdrawals and answers that the one said, in their order: where the other takes batches of
/// so many entries, and no notification has the name of a cancel, as which it would be read.
pub fn two_connections_understand_each_other()
    ensures { (n : ℕ) (writer reader : Seen) (said heard : History) (told other : List Event) →
        StandsAfter writer said told → StandsAfter reader heard other →
        NoCancelNoticed writer.settings.cancels said → AreJoined n writer reader →
        AllWithin reader.settings.most_entries (messages_of writer.settings.order said) →
        Understands n writer reader said heard }
{
    a_call_reads_back();
    a_batch_of_calls_reads_back();
    a_notification_reads_back();
    a_withdrawal_reads_back();
    an_answer_reads_back();
    a_batch_of_answers_reads_back();
    contents_of_what_is_written_are_its_texts();
}

/// A host that keeps the rules is refused only for memory, or by what it can't know yet: the end of the input, or a reply,
/// that isn't told yet; and where there are no more keys. The params of a call that came can be said again, unless they nest
/// deeper than what is said may, or are null and such are told.
pub fn a_host_that_keeps_the_rules_is_refused_only_for_memory()
    ensures refused { (connection : Seen) (history : History) (told : List Event) (happening : Happening)
        (why : Refused) → StandsAfter connection history told →
        KeepsRules connection.settings.cancels history told happening →
        IsRefusal why (refusal connection.settings.cancels history happening) →
        IsExcused history happening why }
    ensures again { (connection : Seen) (history : History) (told : List Event) (number : ℕ) (call : Call)
        (params : List ℕ) → StandsAfter connection history told →
        call_numbered number (stream history) ≡ Some call → call.params ≡ Some params →
        AreParams (Some params) ⊎ IsDeep params ⊎ IsToldNull connection.settings.null_params params }
{
    what_the_rules_allow_is_not_refused();
}

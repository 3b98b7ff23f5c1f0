//! The messages of a connection whose methods are the host's own: what a content is read as, and the texts that go out.
#![tactic(auto)]

mod answer;
mod call;
mod call_row;
mod cancels;
mod entry;
mod law;
mod outgoing;
mod params;
mod read;
mod reply;
mod rules;
mod texts;
mod unit;

pub use answer::{Answer, AnswerError};
pub use call::Call;
pub use cancels::Cancels;
pub use entry::Entry;
pub use law::{
    a_batch_of_answers_reads_back, a_batch_of_calls_reads_back,
    a_batch_within_the_limit_is_read_as_without_one, a_call_reads_back, a_notification_reads_back,
    a_withdrawal_reads_back, an_answer_reads_back, each_text_is_one_line, rules_worked,
};
pub use outgoing::Outgoing;
pub use params::OutgoingParams;
pub use read::unit::{MOST_DEPTH_IN, UnitReader, limit_of_depth_in_figures};
pub use reply::{Reply, ReplyError};
pub use rules::Rules;
pub use texts::{
    write_answer, write_call, write_calls, write_notice, write_result, write_withdrawal,
};
pub use unit::Unit;

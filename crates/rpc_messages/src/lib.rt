//! The messages of JSON-RPC 2.0: ids, errors, replies, outgoing messages, their texts and the keys of calls.
#![tactic(auto)]

mod answer;
mod call;
mod entry;
mod error_value;
mod key;
mod kind;
mod law;
mod our_calls;
mod outgoing;
mod params;
mod parts;
mod read;
mod reply;
mod rows;
mod unit;
mod unit_answer;
mod unit_reader;

pub use answer::{answer_text, batch_text, put_answer};
pub use call::{Call, cancel_target};
pub use entry::Entry;
pub use error_value::ErrorValue;
pub use key::{
    MOST_NUMBERS, MOST_TURNS, call_key, keys_are_what_is_written, limits_of_keys_in_figures,
    read_key,
};
pub use kind::Kind;
pub use law::each_text_is_of_its_parts;
pub use message_ids::{Id, Standard};
pub use our_calls::{
    call_text, calls_text, notice_text, put_call, put_calls, put_notice, put_withdrawal,
    withdraw_text,
};
pub use outgoing::Outgoing;
pub use params::Params;
pub use reply::Reply;
pub use unit::Unit;
pub use unit_answer::{Answer, put_unit_answer};
pub use unit_reader::{UnitReader, read_unit};

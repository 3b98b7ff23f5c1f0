//! Two connections that talk, from their beginning: what the laws of this crate ask for can be met. The law is the
//! contract of a function that does nothing but cite those that it stands on.

ghost use Rattle.std.specs.Prelude.{◌∷◌, []};
ghost use Rattle.call_laws.specs.Met.{asked, said, connection_of};
ghost use Rattle.call_laws.specs.Rows.{asks_and_hears, answers};
ghost use Rattle.call_laws.specs.Talks.{AreTalking};

use connection_messages::{a_call_reads_back, an_answer_reads_back};

/// The one asks, the other is told the request and answers it, and the response comes to the one.
pub fn two_connections_that_talk()
    ensures { AreTalking (connection_of (said ∷ []) asks_and_hears) (connection_of (asked ∷ []) answers)
        asks_and_hears answers }
{
    a_call_reads_back();
    an_answer_reads_back();
}

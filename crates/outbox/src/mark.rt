use content_streams::Framing;
use ghost_log::GhostLog;
use std::marker::Model;

/// What an outbox had at some moment. Contracts see all of it; in memory two counts stand for it.
#[derive(Drop)]
pub struct Mark {
    pub(crate) framing: Framing,
    /// In Frames and Lines, how many bytes weren't taken.
    pub(crate) byte_count: usize,
    /// In Contents, how many texts weren't taken.
    pub(crate) text_count: usize,
    pub(crate) log: GhostLog,
}

impl Model for Mark {
    ghost use Rattle.outbox.specs.Output.{Output};

    ghost Value = { Output };

    ghost use Rattle.outbox.specs.Inner.{IsMarked};

    ghost view = { λ a. record {
      framing = a.framing;
      written = a.log.texts;
      taken = a.log.taken;
    } };

    ghost invariant = { λ a.
        IsMarked a.framing a.log.texts a.log.taken a.byte_count a.text_count };
}

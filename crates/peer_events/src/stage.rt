use handler_future::Handler;
use number_set::Place;
use rpc_messages::Standard;

/// The stage of a number: what a session keeps of its run.
#[derive(Drop)]
pub enum Stage {
    /// Nothing is left to do or to write: it was never given, or it is over.
    Gone,
    /// The call is at fault, and its entry isn't passed yet.
    Faulty(Standard),
    /// Its handler is here, parked or waiting for a turn, and so many of its messages are written.
    Idle(Handler, usize),
    /// Its handler is out for a turn, and so many of its messages are written.
    Out(usize),
    /// It is finished, and so many of the messages and withdrawals of its handler are written, but
    /// not all.
    Over(Handler, usize),
    /// Its handler found no memory.
    Failed,
}

impl Place for Stage {
    ghost use Rattle.std.specs.Prelude.{refl};
    ghost use Rattle.peer_events.specs.declared.stage.Stage.TheVariants.{Gone, Faulty, Idle, Out, Over, Failed};
    ghost use Rattle.peer_events.specs.Stages.{is_gone};

    ghost gone = { Gone };

    ghost is_gone = { is_gone };

    ghost gone_is_gone = { refl };

    ghost gone_alone = { elim [
      | Gone ↦ λ is. refl
      | Faulty error ↦ λ is. cc
      | Idle h written ↦ λ is. cc
      | Out written ↦ λ is. cc
      | Over h written ↦ λ is. cc
      | Failed ↦ λ is. cc
    ] };

    fn is_gone(&self) -> bool {
        matches!(self, Stage::Gone)
    }
}

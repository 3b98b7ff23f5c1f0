ghost use Rattle.std.specs.Prelude.{◌≡◌};
ghost use Rattle.std.specs.VecDeque.{deque_len};

use std::collections::VecDeque;

/// So many places of a queue are always kept: one that is empty again and again asks for no memory each time.
const KEPT: usize = 64;

/// Gives memory back once a queue uses less than a quarter of it.
pub(crate) fn shrink_queue<T>(queue: &mut VecDeque<T>)
    ensures items { queue.new.items ≡ queue.old.items }
    ensures len { deque_len queue.new ≡ deque_len queue.old }
{
    let used = queue.len();
    if queue.capacity() > KEPT && used < queue.capacity() / 4 {
        queue.shrink_to(used.saturating_mul(2).max(KEPT));
    }
}

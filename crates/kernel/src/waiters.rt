// Who is first: the running thread among the ready ones, the highest waiter of a place. Index 0 is highest in priority.
// The words say it, and no record is read.
ghost use Rattle.std.specs.Prelude.{◌≡◌};
ghost use Rattle.kernel.specs.Waiters.{is_ready, first_ready, call_free, running_free, first_waiter};

use crate::kinds::NO_CALL;
use crate::records::{Kernel, Thread};
use crate::states::State;
use crate::tables::thread_at;
use crate::words::{first_in, waiting_at};

pub fn is_ready(t: Thread) -> bool
    ensures { result ≡ is_ready t }
{
    t.state == State::Ready as u16
}

// The running thread: the first that is ready, or NOBODY for idle.
#[tactic(auto, unfolding(crate::specs::Waiters::first_ready))]
pub fn first_ready(k: Kernel) -> u8
    ensures { result ≡ first_ready k }
{
    first_in(k.words.ready)
}

// Whether thread i has no unfinished call; NOBODY has none.
pub fn is_free(threads: [Thread; 16], i: u8) -> bool
    ensures { result ≡ call_free threads i }
{
    thread_at(threads, i).call.kind == NO_CALL
}

// Whether the running thread has no unfinished call.
pub fn running_free(k: Kernel) -> bool
    ensures { result ≡ running_free k }
{
    is_free(k.threads, first_ready(k))
}

// The first thread that is queued at a place, or NOBODY.
#[tactic(auto, unfolding(crate::specs::Waiters::first_waiter))]
pub fn first_waiter(k: Kernel, place: u16) -> u8
    ensures { result ≡ first_waiter k place }
{
    first_in(waiting_at(k.words, place as u32))
}

// Threads queues, at any place: a plain queue, a semaphore's or pool's waiters, one side of a mailbox.
ghost use Rattle.std.specs.Prelude.{◌≡◌};
ghost use Rattle.kernel.specs.Queue.{enqueued, released_first, released_all};

use crate::moves::{block, wake};
use crate::numbers::THREADS;
use crate::records::{Call, Kernel};
use crate::states::State;
use crate::waiters::first_waiter;
use crate::words::{has_bit, waiting_at};

// Thread i waits in the queue: chThdEnqueueTimeoutS.
#[tactic(auto, unfolding(crate::specs::Queue::enqueued))]
pub fn enqueue(k: Kernel, i: u8, place: u16, call: Call) -> Kernel
    ensures { result ≡ enqueued k i place call }
{
    block(k, i, State::Queued as u16, place, call)
}

// The first thread that waits at the place is made ready with m; with nobody there nothing changes: chThdDequeueNextI.
#[tactic(auto, unfolding(crate::specs::Queue::released_first))]
pub fn release_first(k: Kernel, place: u16, m: i32) -> Kernel
    ensures { result ≡ released_first k place m }
{
    wake(k, first_waiter(k, place), m)
}

// All threads that wait at the place are made ready with m, in index order: chThdDequeueAllI.
#[tactic(auto, unfolding(crate::specs::Queue::released_all))]
pub fn release_all(k: Kernel, place: u16, m: i32) -> Kernel
    ensures { result ≡ released_all k place m }
{
    let word = waiting_at(k.words, place as u32);
    let mut r = k;
    for i in 0..THREADS {
        if has_bit(word, i) {
            r = wake(r, i, m);
        }
    }
    r
}

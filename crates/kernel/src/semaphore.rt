// Counting semaphores, at any place: a semaphore's own, or the one beside a pool.
ghost use Rattle.std.specs.Prelude.{◌≡◌};
ghost use Rattle.kernel.specs.Semaphore.{taken, waited, signalled, reset_to};

use crate::counters::{count_down, count_up};
use crate::moves::finish;
use crate::numbers::{OK, TOP, WAS_RESET};
use crate::queue::{enqueue, release_all, release_first};
use crate::records::{Call, Kernel};
use crate::tables::{counter_at, set_counter};

// The tables after a signal, and whether it counted. No Option: callers hand on the tables either way.
#[derive(Clone, Copy)]
pub struct Signalled {
    pub kernel: Kernel,
    pub counted: bool,
}

// One is taken off the counter, whatever it is: chSemFastWaitI.
#[tactic(auto, unfolding(crate::specs::Semaphore::taken))]
pub fn take(k: Kernel, place: u16) -> Kernel
    ensures { result ≡ taken k place }
{
    set_counter(k, place, count_down(counter_at(k.counters, place)))
}

// Thread i waits for the semaphore: chSemWaitTimeoutS.
#[tactic(auto, unfolding(crate::specs::Semaphore::waited))]
pub fn wait(k: Kernel, i: u8, place: u16, call: Call) -> Kernel
    ensures { result ≡ waited k i place call }
{
    if 0 < counter_at(k.counters, place) {
        finish(take(k, place), i, OK, 0)
    } else {
        enqueue(k, i, place, call)
    }
}

// Below 0 the highest waiter is made ready with 0, which raises the counter; else the counter is raised: chSemSignalI.
// At the top it stays, nobody is woken, and the signal has not counted.
#[tactic(auto, unfolding(crate::specs::Semaphore::signalled))]
pub fn signal(k: Kernel, place: u16) -> Signalled
    ensures { result ≡ signalled k place }
{
    let c = counter_at(k.counters, place);
    let kernel = if c < 0 {
        release_first(k, place, OK)
    } else {
        set_counter(k, place, count_up(c))
    };
    Signalled {
        kernel,
        counted: c < TOP,
    }
}

// All waiters are made ready with -2, and the counter becomes c: chSemResetI.
#[tactic(auto, unfolding(crate::specs::Semaphore::reset_to))]
pub fn reset(k: Kernel, place: u16, c: i32) -> Kernel
    ensures { result ≡ reset_to k place c }
{
    set_counter(release_all(k, place, WAS_RESET), place, c)
}

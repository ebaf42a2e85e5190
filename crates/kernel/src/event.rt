// Event flags of a thread: signalled by anyone, taken by the thread that waits for them, when it goes on.
ghost use Rattle.std.specs.Prelude.{◌≡◌};
ghost use Rattle.kernel.specs.Event.{flagged, is_met, took_flags, event_signalled, event_waited};

use crate::moves::{block, finish, wake};
use crate::numbers::{NOWHERE, OK};
use crate::records::{Call, Kernel, Thread};
use crate::states::State;
use crate::tables::{set_thread, thread_at};

// The row with the flags of `mask` ORed to those pending.
fn flag(t: Thread, mask: u32) -> Thread
    ensures { result ≡ flagged t mask }
{
    Thread {
        pending: t.pending | mask,
        ..t
    }
}

// Whether the thread awaits any of the flags that are pending for it.
fn is_met(t: Thread) -> bool
    ensures { result ≡ is_met t }
{
    t.state == State::Awaiting as u16 && t.pending & t.awaited != 0
}

// Thread i takes its pending flags in `mask`: they are cleared, and are the datum of its call.
#[tactic(auto, unfolding(crate::specs::Event::took_flags))]
pub fn take_flags(k: Kernel, i: u8, mask: u32) -> Kernel
    ensures { result ≡ took_flags k i mask }
{
    let mut t = thread_at(k.threads, i);
    let found = t.pending & mask;
    t.pending -= found;
    finish(set_thread(k, i, t), i, OK, found)
}

// The flags of `mask` are signalled to thread i; if it awaits any of those now pending it is made ready. They stay pending until
// it goes on, and so do flags that come in between: chEvtSignalI.
#[tactic(auto, unfolding(crate::specs::Event::event_signalled))]
pub fn signal_events(k: Kernel, i: u8, mask: u32) -> Kernel
    ensures { result ≡ event_signalled k i mask }
{
    let t = flag(thread_at(k.threads, i), mask);
    let f = set_thread(k, i, t);
    if is_met(t) { wake(f, i, OK) } else { f }
}

// Thread i waits for any flag of the call's mask; those pending are taken at once: chEvtWaitAnyTimeout.
#[tactic(auto, unfolding(crate::specs::Event::event_waited))]
pub fn wait_events(k: Kernel, i: u8, call: Call) -> Kernel
    ensures { result ≡ event_waited k i call }
{
    let t = thread_at(k.threads, i);
    let mask = call.operand;
    if t.pending & mask != 0 {
        take_flags(k, i, mask)
    } else {
        block(k, i, State::Awaiting as u16, NOWHERE, call)
    }
}

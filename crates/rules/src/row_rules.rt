// Whether a thread's record hangs together by itself: its call, its wait, its ticks and its flags.
ghost use Rattle.std.specs.Prelude.{◌≡◌};
ghost use Rattle.rules.specs.RowRules.{
  is_sleep,
  is_post,
  is_mailing,
  is_queueing,
  is_alone,
  call_limit,
  call_clear,
  call_sound,
  call_fits,
  wait_state,
  wait_place,
  wait_fits,
  ticks_fit,
  awaited_fit,
  none_pending,
  flags_fit,
  cause_fits,
  row_fits,
};

use kernel::causes::Cause;
use kernel::kinds::{Kind, NO_CALL};
use kernel::numbers::{INFINITE, NOWHERE};
use kernel::places::{pool_place, queue_place, readers_place, semaphore_place, writers_place};
use kernel::records::{Call, Thread};
use kernel::states::State;
use library::calls::keeps_operand;
use library::sizes::Sizes;

// A sleep, for an interval or until a time.
fn is_sleep(kind: u16) -> bool
    ensures { result ≡ is_sleep kind }
{
    kind == Kind::SleepFor as u16 || kind == Kind::SleepUntil as u16
}

fn is_post(kind: u16) -> bool
    ensures { result ≡ is_post kind }
{
    kind == Kind::Post as u16 || kind == Kind::PostAhead as u16
}

// A wait at a mailbox.
fn is_mailing(kind: u16) -> bool
    ensures { result ≡ is_mailing kind }
{
    is_post(kind) || kind == Kind::Fetch as u16
}

// A wait at a counter's place.
fn is_queueing(kind: u16) -> bool
    ensures { result ≡ is_queueing kind }
{
    kind == Kind::SemaphoreWait as u16
        || (kind == Kind::QueueWait as u16 || (is_mailing(kind) || kind == Kind::Alloc as u16))
}

// A wait that is on no object.
fn is_alone(kind: u16) -> bool
    ensures { result ≡ is_alone kind }
{
    is_sleep(kind) || kind == Kind::EventWait as u16
}

// How many objects there are for an unfinished call: 1 stands for the object 0 of a call that has none, 0 for a kind that
// never sleeps, so that no object is in range.
fn call_limit(z: Sizes, kind: u16) -> u16
    ensures { result ≡ call_limit z kind }
{
    if kind == Kind::SemaphoreWait as u16 {
        z.semaphores
    } else if kind == Kind::QueueWait as u16 {
        z.queues
    } else if kind == Kind::Suspend as u16 {
        z.references
    } else if is_alone(kind) {
        1
    } else if is_mailing(kind) {
        z.mailboxes
    } else if kind == Kind::Alloc as u16 {
        z.pools
    } else {
        0
    }
}

// Without a call its fields are 0.
fn is_clear(call: Call) -> bool
    ensures { result ≡ call_clear call }
{
    call.object == 0 && (call.operand == 0 && call.timeout == 0)
}

// An unfinished call is of a kind that sleeps, its object is in range, its timeout above 0, and an operand that it does not keep is 0.
fn is_sound(call: Call, z: Sizes) -> bool
    ensures { result ≡ call_sound call z }
{
    let limit = call_limit(z, call.kind);
    let keeps = keeps_operand(call.kind);
    call.object < limit && (1 <= call.timeout && (keeps || call.operand == 0))
}

#[tactic(auto, unfolding(crate::specs::RowRules::call_fits))]
pub fn call_fits(t: Thread, z: Sizes) -> bool
    ensures { result ≡ call_fits t z }
{
    let call = t.call;
    if call.kind == NO_CALL {
        is_clear(call)
    } else {
        is_sound(call, z)
    }
}

// The state in which a call of this kind sleeps; ready for a kind that never does, which fits no thread that is not ready.
fn wait_state(kind: u16) -> u16
    ensures { result ≡ wait_state kind }
{
    if is_queueing(kind) {
        State::Queued as u16
    } else if kind == Kind::Suspend as u16 {
        State::Suspended as u16
    } else if is_sleep(kind) {
        State::Sleeping as u16
    } else if kind == Kind::EventWait as u16 {
        State::Awaiting as u16
    } else {
        State::Ready as u16
    }
}

// Where a call of this kind on this object sleeps.
fn wait_place(kind: u16, object: u16) -> u16
    ensures { result ≡ wait_place kind object }
{
    if kind == Kind::SemaphoreWait as u16 {
        semaphore_place(object)
    } else if kind == Kind::QueueWait as u16 {
        queue_place(object)
    } else if kind == Kind::Suspend as u16 {
        object
    } else if is_post(kind) {
        writers_place(object)
    } else if kind == Kind::Fetch as u16 {
        readers_place(object)
    } else if kind == Kind::Alloc as u16 {
        pool_place(object)
    } else {
        NOWHERE
    }
}

// A ready thread waits nowhere; any other waits as its call does.
#[tactic(auto, unfolding(crate::specs::RowRules::wait_fits))]
pub fn wait_fits(t: Thread) -> bool
    ensures { result ≡ wait_fits t }
{
    let call = t.call;
    if t.state == State::Ready as u16 {
        t.place == NOWHERE
    } else {
        t.state == wait_state(call.kind) && t.place == wait_place(call.kind, call.object)
    }
}

// Ticks are left exactly if the thread waits for a finite time, and no more than its call's timeout.
#[tactic(auto, unfolding(crate::specs::RowRules::ticks_fit))]
pub fn ticks_fit(t: Thread) -> bool
    ensures { result ≡ ticks_fit t }
{
    let call = t.call;
    if t.state == State::Ready as u16 {
        t.remaining == 0
    } else if call.timeout == INFINITE {
        t.remaining == 0
    } else {
        1 <= t.remaining && t.remaining <= call.timeout
    }
}

// The awaited flags are an unfinished event wait's mask.
pub fn awaited_fit(t: Thread) -> bool
    ensures { result ≡ awaited_fit t }
{
    let call = t.call;
    if call.kind == Kind::EventWait as u16 {
        t.awaited == call.operand
    } else {
        t.awaited == 0
    }
}

// A thread that awaits events has none of its flags pending.
pub fn none_pending(t: Thread) -> bool
    ensures { result ≡ none_pending t }
{
    t.state != State::Awaiting as u16 || t.pending & t.awaited == 0
}

#[tactic(auto, unfolding(crate::specs::RowRules::flags_fit))]
fn flags_fit(t: Thread) -> bool
    ensures { result ≡ flags_fit t }
{
    awaited_fit(t) && none_pending(t)
}

// Whether its cause is one of the list.
pub fn cause_fits(t: Thread) -> bool
    ensures { result ≡ cause_fits t }
{
    t.cause <= Cause::Tick as u32
}

// Whether a thread's record hangs together by itself.
#[tactic(auto, unfolding(crate::specs::RowRules::row_fits))]
pub fn row_fits(t: Thread, z: Sizes) -> bool
    ensures { result ≡ row_fits t z }
{
    call_fits(t, z) && (wait_fits(t) && (ticks_fit(t) && (flags_fit(t) && cause_fits(t))))
}

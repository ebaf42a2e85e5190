// The refusals, in document 01's order.
ghost use Rattle.std.specs.Prelude.{◌≡◌};
ghost use Rattle.kernel.specs.Told.{code_of};
ghost use Rattle.library.specs.Tables.{opened};
ghost use Rattle.steps.specs.Refusal.{kind_fits, caller_fits, context_fits, object_limit, is_span, value_fits, state_fits, refusal_of};

use kernel::clock::Clock;
use kernel::kinds::Kind;
use kernel::numbers::{IMMEDIATE, INFINITE, NOBODY};
use kernel::refusals::Refusal;
use kernel::tables::holder_at;
use kernel::time::{SystemTime, difference};
use kernel::words::first_in;
use library::acting::is_kernel_wait;
use library::calls::Step;
use library::numbers::{ABSENT, OUT};
use library::pool::mark_at;
use library::settling::is_box_call;
use library::sizes::Sizes;
use library::tables::{Pool, Tables, pool_at};
use rules::hanging::hangs_together;

// 2: kind not 1 to 22.
fn kind_fits(kind: u8) -> bool
    ensures { result ≡ kind_fits kind }
{
    Kind::Tick as u8 <= kind && kind <= Kind::Add as u8
}

// 3: the caller is neither 255 nor the running thread.
fn caller_fits(running: u8, caller: u8) -> bool
    ensures { result ≡ caller_fits running caller }
{
    caller == NOBODY || caller == running
}

// 4: a tick is an interrupt's; an interrupt may not wait, and may try a mailbox or pool only with a timeout of 0.
fn context_fits(s: Step) -> bool
    ensures { result ≡ context_fits s }
{
    if s.caller == NOBODY {
        if is_kernel_wait(s.kind) {
            false
        } else if is_box_call(s.kind as u16) {
            s.timeout == IMMEDIATE
        } else {
            true
        }
    } else {
        s.kind != Kind::Tick as u8
    }
}

// 5: how many objects there are for a kind; any object will do for a kind that has none.
fn object_limit(z: Sizes, kind: u8) -> u16
    ensures { result ≡ object_limit z kind }
{
    if kind <= Kind::Tick as u8 {
        256
    } else if kind <= Kind::BinarySignal as u8 {
        z.semaphores
    } else if kind <= Kind::ReleaseAll as u8 {
        z.queues
    } else if kind <= Kind::Resume as u8 {
        z.references
    } else if kind == Kind::EventSignal as u8 {
        z.threads
    } else if kind <= Kind::EventWait as u8 {
        256
    } else if kind <= Kind::MailboxResume as u8 {
        z.mailboxes
    } else {
        z.pools
    }
}

// 6: a sleep of neither 0 nor infinitely many ticks.
fn is_span(ticks: u32) -> bool
    ensures { result ≡ is_span ticks }
{
    1 <= ticks && ticks < INFINITE
}

// 6: the operand and timeout are in range.
fn value_fits(now: SystemTime, s: Step) -> bool
    ensures { result ≡ value_fits now s }
{
    match Kind::try_from(s.kind as u16) {
        Ok(Kind::SemaphoreReset) => s.a <= 2147483647,
        Ok(Kind::SleepFor) => is_span(s.timeout),
        Ok(Kind::SleepUntil) => {
            let d = difference(now, SystemTime(s.a));
            is_span(d.0)
        }
        Ok(Kind::EventWait) => 1 <= s.a,
        Ok(Kind::Free) => s.a <= 31,
        Ok(Kind::Add) => s.a <= 31,
        _ => true,
    }
}

// 7: the object is in the state that the step needs.
fn state_fits(references: [u8; 8], pools: [Pool; 4], s: Step) -> bool
    ensures { result ≡ state_fits references pools s }
{
    let object = s.object as u16;
    match Kind::try_from(s.kind as u16) {
        Ok(Kind::Suspend) => holder_at(references, object) == NOBODY,
        Ok(Kind::Free) => mark_at(pool_at(pools, object), (s.a % 256) as u8) == OUT,
        Ok(Kind::Add) => mark_at(pool_at(pools, object), (s.a % 256) as u8) == ABSENT,
        _ => true,
    }
}

// Why a step is refused, if it is. All tests are made, in document 01's order and whatever the others say; the first that fails gives the
// reason.
#[tactic(auto, unfolding(crate::specs::Refusal::refusal_of, kernel::specs::Waiters::first_ready))]
pub fn refuse(t: Tables, clock: Clock, s: Step) -> Result<(), Refusal>
    ensures { code_of result ≡ refusal_of (opened t) clock s }
{
    let hangs = hangs_together(t, clock);
    let kind = kind_fits(s.kind);
    let caller = caller_fits(first_in(t.kernel.words.ready), s.caller);
    let context = context_fits(s);
    let outside = object_limit(t.sizes, s.kind) <= s.object as u16;
    let value = value_fits(clock.time, s);
    let state = state_fits(t.kernel.references, t.pools, s);
    if !hangs {
        Err(Refusal::Tables)
    } else if !kind {
        Err(Refusal::Kind)
    } else if !caller {
        Err(Refusal::Caller)
    } else if !context {
        Err(Refusal::Context)
    } else if outside {
        Err(Refusal::Object)
    } else if !value {
        Err(Refusal::Value)
    } else if !state {
        Err(Refusal::State)
    } else {
        Ok(())
    }
}

// What an accepted step does before settling: each kind either finishes the caller's call or puts it to sleep.
ghost use Rattle.std.specs.Prelude.{◌≡◌};
ghost use Rattle.library.specs.Acting.{signal_message, signal_acted, call_made, effected, kernel_waits, answers_itself, acted_on_kernel, box_effected, acted_on_box};

use crate::binary::binary_signal;
use crate::calls::{Step, as_signed, call_of};
use crate::mailbox::{reset_mailbox, resume_mailbox, try_fetch, try_post};
use crate::pool::{put_back, try_alloc};
use crate::tables::{Plant, set_kernel};
use kernel::delay::{sleep_for, sleep_until};
use kernel::event::{signal_events, wait_events};
use kernel::kinds::Kind;
use kernel::moves::finish;
use kernel::numbers::{NOT_COUNTED, OK};
use kernel::places::{queue_place, semaphore_place};
use kernel::queue::{enqueue, release_all, release_first};
use kernel::records::Kernel;
use kernel::reference::{resume, suspend};
use kernel::semaphore::{reset, signal, wait};
use kernel::ticking::tick;
use kernel::time::{Interval, SystemTime};

// What a plain signal answers, by whether it counted.
fn signal_message(counted: bool) -> i32
    ensures { result ≡ signal_message counted }
{
    if counted { OK } else { NOT_COUNTED }
}

// 3: a signal at the top is answered with 1, any other with 0: chSemSignal, chSemSignalI.
#[tactic(auto, unfolding(crate::specs::Acting::signal_acted))]
fn act_signal(k: Kernel, i: u8, place: u16) -> Kernel
    ensures { result ≡ signal_acted k i place }
{
    let done = signal(k, place);
    finish(done.kernel, i, signal_message(done.counted), 0)
}

// The kernel part's calls that have an answer of their own: 2, 3, 6, 9, 11, 12 and 14. All but 3 may sleep.
#[tactic(auto, unfolding(crate::specs::Acting::call_made))]
fn make_call(k: Kernel, now: SystemTime, s: Step) -> Kernel
    ensures { result ≡ call_made k now s }
{
    let object = s.object as u16;
    let call = call_of(s);
    match Kind::try_from(s.kind as u16) {
        Ok(Kind::SemaphoreWait) => wait(k, s.caller, semaphore_place(object), call),
        Ok(Kind::Signal) => act_signal(k, s.caller, semaphore_place(object)),
        Ok(Kind::QueueWait) => enqueue(k, s.caller, queue_place(object), call),
        Ok(Kind::Suspend) => suspend(k, s.caller, object, call),
        Ok(Kind::SleepFor) => sleep_for(k, s.caller, Interval(s.timeout)),
        Ok(Kind::SleepUntil) => sleep_until(k, s.caller, now, SystemTime(s.a)),
        _ => wait_events(k, s.caller, call),
    }
}

// The kernel part's calls that answer 0 and 0: 1, 4, 5, 7, 8, 10 and 13.
#[tactic(auto, unfolding(crate::specs::Acting::effected))]
fn effect(k: Kernel, n: u16, s: Step) -> Kernel
    ensures { result ≡ effected k n s }
{
    let object = s.object as u16;
    match Kind::try_from(s.kind as u16) {
        Ok(Kind::Tick) => tick(k, n),
        Ok(Kind::SemaphoreReset) => reset(k, semaphore_place(object), as_signed(s.a)),
        Ok(Kind::BinarySignal) => binary_signal(k, semaphore_place(object)),
        Ok(Kind::ReleaseFirst) => release_first(k, queue_place(object), as_signed(s.a)),
        Ok(Kind::ReleaseAll) => release_all(k, queue_place(object), as_signed(s.a)),
        Ok(Kind::Resume) => resume(k, object, as_signed(s.a)),
        _ => signal_events(k, s.object, s.a),
    }
}

// Whether a kind of 1 to 14 is one that may sleep.
pub fn is_kernel_wait(kind: u8) -> bool
    ensures { result ≡ kernel_waits kind }
{
    matches!(
        Kind::try_from(kind as u16),
        Ok(
            Kind::SemaphoreWait
                | Kind::QueueWait
                | Kind::Suspend
                | Kind::SleepFor
                | Kind::SleepUntil
                | Kind::EventWait
        )
    )
}

// Whether a kind of 1 to 14 has an answer of its own.
fn answers_itself(kind: u8) -> bool
    ensures { result ≡ answers_itself kind }
{
    kind == Kind::Signal as u8 || is_kernel_wait(kind)
}

// An accepted step of kinds 1 to 14 acts. `now` is the time before the step.
#[tactic(auto, unfolding(crate::specs::Acting::acted_on_kernel))]
pub fn act_on_kernel(k: Kernel, n: u16, now: SystemTime, s: Step) -> Kernel
    ensures { result ≡ acted_on_kernel k n now s }
{
    if answers_itself(s.kind) {
        make_call(k, now, s)
    } else {
        finish(effect(k, n, s), s.caller, OK, 0)
    }
}

// The library part's calls that never sleep: 18, 19, 21 and 22.
#[tactic(auto, unfolding(crate::specs::Acting::box_effected))]
fn effect_on_box(p: Plant, s: Step) -> Plant
    ensures { result ≡ box_effected p s }
{
    let object = s.object as u16;
    match Kind::try_from(s.kind as u16) {
        Ok(Kind::MailboxReset) => reset_mailbox(p, object),
        Ok(Kind::MailboxResume) => resume_mailbox(p, object),
        _ => put_back(p, object, (s.a % 256) as u8),
    }
}

// An accepted step of kinds 15 to 22 acts.
#[tactic(auto, unfolding(crate::specs::Acting::acted_on_box))]
pub fn act_on_box(p: Plant, s: Step) -> Plant
    ensures { result ≡ acted_on_box p s }
{
    let call = call_of(s);
    match Kind::try_from(s.kind as u16) {
        Ok(Kind::Post | Kind::PostAhead) => try_post(p, s.caller, call),
        Ok(Kind::Fetch) => try_fetch(p, s.caller, call),
        Ok(Kind::Alloc) => try_alloc(p, s.caller, call),
        _ => {
            let done = effect_on_box(p, s);
            set_kernel(done, finish(done.kernel, s.caller, OK, 0))
        }
    }
}

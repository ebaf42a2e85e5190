// The two moves, and the end of a call. A thread is made ready in one way, `wake`, and goes to sleep in one way, `sleep`:
// every operation finds a thread and makes one of these moves, so a wait begins and ends here and nowhere else.
// They store what they change where it lies: each further call over whole tables would copy them, and a tick may make 16 moves.
ghost use Rattle.std.specs.Prelude.{◌≡◌};
ghost use Rattle.kernel.specs.Moves.{readied, ticks_of, awaited_by, asleep, answered, woken, slept, finished, blocked};

use crate::counters::{count_down, count_up};
use crate::kinds::Kind;
use crate::numbers::{IMMEDIATE, INFINITE, NOBODY, NOWHERE, THREADS, TIMED_OUT};
use crate::records::{Answer, Call, Kernel, Thread, no_answer, no_call};
use crate::states::State;
use crate::tables::{at, put};
use crate::words::{note_asleep, note_ready};

// The row of a thread that is made ready with message m, by a cause, in the step of this number.
fn ready_row(t: Thread, m: i32, cause: u32, step: u32) -> Thread
    ensures { result ≡ readied t m cause step }
{
    Thread {
        state: State::Ready as u16,
        place: NOWHERE,
        remaining: 0,
        message: m,
        cause,
        step,
        ..t
    }
}

// The ticks that a timeout leaves to count: none for an infinite one.
fn ticks_of(timeout: u32) -> u32
    ensures { result ≡ ticks_of timeout }
{
    if timeout == INFINITE { 0 } else { timeout }
}

// The flags that a call waits for: the mask of an event wait.
fn awaited_by(call: Call) -> u32
    ensures { result ≡ awaited_by call }
{
    if call.kind == Kind::EventWait as u16 {
        call.operand
    } else {
        0
    }
}

// The row of a thread that goes to sleep in a call.
fn sleeping_row(t: Thread, state: u16, place: u16, call: Call) -> Thread
    ensures { result ≡ asleep t state place call }
{
    Thread {
        state,
        place,
        remaining: ticks_of(call.timeout),
        awaited: awaited_by(call),
        call,
        answer: no_answer(),
        ..t
    }
}

// The row of a thread whose call is finished.
fn answered_row(t: Thread, answer: Answer) -> Thread
    ensures { result ≡ answered t answer }
{
    Thread {
        awaited: 0,
        call: no_call(),
        answer,
        ..t
    }
}

// Thread i is made ready with message m, and leaves what it waits on: its queue, whose counter rises, or its reference, which is
// emptied. Its record keeps the cause of the call at work and the number of the step. Nothing changes where there is no thread i.
#[tactic(auto, unfolding(crate::specs::Moves::woken, crate::specs::Moves::taken_off))]
pub fn wake(k: Kernel, i: u8, m: i32) -> Kernel
    ensures { result ≡ woken k i m }
{
    let mut r = k;
    if i < THREADS {
        let t = r.threads[i as usize];
        let place = t.place as usize;
        if t.state == State::Queued as u16 {
            let c = at(&r.counters, place, 0);
            put(&mut r.counters, place, count_up(c));
        } else if t.state == State::Suspended as u16 {
            put(&mut r.references, place, NOBODY);
        }
        r.words = note_ready(r.words, i, t.state, t.place);
        r.threads[i as usize] = ready_row(t, m, r.cause, r.steps);
        r.woken[i as usize] = true;
    }
    r
}

// Thread i goes to sleep in a call, and joins what it will wait on: a queue, whose counter falls, or a reference, which then holds
// it. Nothing changes where there is no thread i.
#[tactic(auto, unfolding(crate::specs::Moves::slept, crate::specs::Moves::put_on))]
pub fn sleep(k: Kernel, i: u8, state: u16, place: u16, call: Call) -> Kernel
    ensures { result ≡ slept k i state place call }
{
    let mut r = k;
    if i < THREADS {
        let t = r.threads[i as usize];
        if state == State::Queued as u16 {
            let c = at(&r.counters, place as usize, 0);
            put(&mut r.counters, place as usize, count_down(c));
        } else if state == State::Suspended as u16 {
            put(&mut r.references, place as usize, i);
        }
        r.words = note_asleep(r.words, i, state, place);
        r.threads[i as usize] = sleeping_row(t, state, place, call);
    }
    r
}

// The call of thread i is finished with an answer; NOBODY stands for an interrupt, whose answer is kept beside the tables.
#[tactic(auto, unfolding(crate::specs::Moves::finished))]
pub fn finish(k: Kernel, i: u8, message: i32, datum: u32) -> Kernel
    ensures { result ≡ finished k i message datum }
{
    let answer = Answer { message, datum };
    let mut r = k;
    if i == NOBODY {
        r.answer = answer;
    } else if i < THREADS {
        let t = r.threads[i as usize];
        r.threads[i as usize] = answered_row(t, answer);
        r.finished[i as usize] = true;
    }
    r
}

// What cannot be had at once: a timeout of 0 answers -1 and changes nothing else, any other goes to sleep.
#[tactic(auto, unfolding(crate::specs::Moves::blocked))]
pub fn block(k: Kernel, i: u8, state: u16, place: u16, call: Call) -> Kernel
    ensures { result ≡ blocked k i state place call }
{
    if call.timeout == IMMEDIATE {
        finish(k, i, TIMED_OUT, 0)
    } else {
        sleep(k, i, state, place, call)
    }
}

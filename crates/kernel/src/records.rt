// The kernel part's records. Plain numbers only, so that any bytes a host hands over are legal values.
// What a host owns has C's layout and no padding: every byte belongs to a field.
ghost use Rattle.std.specs.Prelude.{◌≡◌};
ghost use Rattle.kernel.specs.Records.{no_call, no_answer, blank, fresh_records, raised, begun, ended};
ghost use Rattle.kernel.specs.Tables.{with_cause};

use crate::causes::Cause;
use crate::kinds::NO_CALL;
use crate::numbers::{NOBODY, NOWHERE};
use crate::states::State;

// An unfinished call: the step's kind, object, operand and full timeout; all 0 without one.
#[repr(C)]
#[derive(Clone, Copy)]
pub struct Call {
    pub kind: u16,
    pub object: u16,
    pub operand: u32,
    pub timeout: u32,
}

#[repr(C)]
#[derive(Clone, Copy)]
pub struct Answer {
    pub message: i32,
    pub datum: u32,
}

// A thread: its state, where it waits, its ticks left, event flags, wake message, unfinished call and last answer, and of its last
// waking the cause and the number of the step.
// `place` is a counter's place if the thread is queued, a reference's number if it is suspended, else NOWHERE.
#[repr(C)]
#[derive(Clone, Copy)]
pub struct Thread {
    pub state: u16,
    pub place: u16,
    pub remaining: u32,
    pub pending: u32,
    pub awaited: u32,
    pub message: i32,
    pub call: Call,
    pub answer: Answer,
    pub cause: u32,
    pub step: u32,
}

// Who is ready, and who waits at each place: bit i of a word stands for thread i.
// `unused` fills the records up to a multiple of 4 bytes; it may hold anything, and keeps it.
#[repr(C)]
#[derive(Clone, Copy)]
pub struct Words {
    pub ready: u16,
    pub waiting: [u16; 36],
    pub unused: u16,
}

// What a host keeps between two steps. A reference holds a thread's number, or NOBODY. `steps` is the number of the last accepted step.
#[repr(C)]
#[derive(Clone, Copy)]
pub struct Records {
    pub threads: [Thread; 16],
    pub counters: [i32; 36],
    pub references: [u8; 8],
    pub words: Words,
    pub steps: u32,
}

// The kernel at work on one step: the records, who was woken, whose calls finished, the answer of an interrupt's own call, the number
// of the step, and the cause that the call at work has if it wakes.
// `woken` and `finished` lie beside the threads, since a row of `threads` is what a host keeps, in C's layout.
// The words stand first, so that the compiler copies what follows them in one piece.
#[derive(Clone, Copy)]
pub struct Kernel {
    pub words: Words,
    pub threads: [Thread; 16],
    pub counters: [i32; 36],
    pub references: [u8; 8],
    pub woken: [bool; 16],
    pub finished: [bool; 16],
    pub answer: Answer,
    pub steps: u32,
    pub cause: u32,
}

pub fn no_call() -> Call
    ensures { result ≡ no_call }
{
    Call {
        kind: NO_CALL,
        object: 0,
        operand: 0,
        timeout: 0,
    }
}

pub fn no_answer() -> Answer
    ensures { result ≡ no_answer }
{
    Answer {
        message: 0,
        datum: 0,
    }
}

// A fresh thread: ready, and all else 0 or clear. Every byte of it is 0.
pub fn blank_thread() -> Thread
    ensures { result ≡ blank }
{
    Thread {
        state: State::Ready as u16,
        place: NOWHERE,
        remaining: 0,
        pending: 0,
        awaited: 0,
        message: 0,
        call: no_call(),
        answer: no_answer(),
        cause: Cause::None as u32,
        step: 0,
    }
}

// All threads ready, all references empty, all else 0; the words are those of so many threads as there are.
pub fn fresh(words: Words) -> Records
    ensures { result ≡ fresh_records words }
{
    Records {
        threads: [blank_thread(); 16],
        counters: [0; 36],
        references: [NOBODY; 8],
        words,
        steps: 0,
    }
}

// The number of the step after step n; the last number stays.
fn raise(n: u32) -> u32
    ensures { result ≡ raised n }
{
    n.saturating_add(1)
}

// A step begins, whose wakings have this cause: it has its number, nobody is woken yet, and no call has finished.
pub fn begin(r: Records, cause: u32) -> Kernel
    ensures { result ≡ with_cause (begun r) cause }
{
    let threads = r.threads;
    let counters = r.counters;
    let references = r.references;
    Kernel {
        threads,
        counters,
        references,
        woken: [false; 16],
        finished: [false; 16],
        answer: no_answer(),
        words: r.words,
        steps: raise(r.steps),
        cause,
    }
}

// The records that a step leaves.
pub fn end(k: Kernel) -> Records
    ensures { result ≡ ended k }
{
    let threads = k.threads;
    let counters = k.counters;
    let references = k.references;
    Records {
        threads,
        counters,
        references,
        words: k.words,
        steps: k.steps,
    }
}

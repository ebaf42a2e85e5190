// One step: refused with everything as it was, or acted, settled and answered.
ghost use Rattle.std.specs.Prelude.{◌≡◌};
ghost use Rattle.kernel.specs.Told.{number};
ghost use Rattle.library.specs.Acting.{acted_on_box, acted_on_kernel};
ghost use Rattle.library.specs.Tables.{opened, with_kernel};
ghost use Rattle.steps.specs.Stepping.{mask_of, answer_of, outcome_of, refused_outcome, clock_after, budget_of, done_with, settled_with, running_at_refusal, refused_with, started, stepped};

use crate::refusal::refuse;
use kernel::clock::{Clock, advance};
use kernel::kinds::Kind;
use kernel::numbers::NOBODY;
use kernel::records::{Answer, Kernel, begin, end};
use kernel::refusals::Refusal;
use kernel::tables::{thread_at, used_rows};
use kernel::waiters::{first_ready, running_free};
use kernel::words::first_in;
use library::acting::{act_on_box, act_on_kernel};
use library::calls::Step;
use library::causes::cause_of;
use library::settling::settle;
use library::tables::{Plant, Tables, close, open, set_kernel};

// A step's result. The masks have bit i for thread i.
#[repr(C)]
#[derive(Clone, Copy)]
pub struct Outcome {
    // Stays a number beside the values: `step` answers every step, and its clause says of the running thread on a refusal too.
    pub code: u8,
    pub running: u8,
    pub woken: u16,
    pub finished: u16,
    pub message: i32,
    pub datum: u32,
}

#[derive(Clone, Copy)]
pub struct Stepped {
    pub tables: Tables,
    pub clock: Clock,
    pub outcome: Outcome,
}

// The flags as a word, flag i at bit i.
#[tactic(auto, unfolding(crate::specs::Stepping::mask_of))]
fn mask_of(flags: [bool; 16]) -> u16
    ensures { result ≡ mask_of flags }
{
    let mut w: u16 = 0;
    for i in (0..16).rev() {
        w = w * 2 + u16::from(flags[i]);
    }
    w
}

// The answer to the caller's call: its thread's last answer, or the interrupt's own.
fn answer_of(k: Kernel, caller: u8) -> Answer
    ensures { result ≡ answer_of k caller }
{
    if caller == NOBODY {
        k.answer
    } else {
        let threads = k.threads;
        let t = thread_at(threads, caller);
        t.answer
    }
}

// The result of an accepted step, once it has settled.
#[tactic(auto, unfolding(crate::specs::Stepping::outcome_of))]
fn outcome_of(k: Kernel, caller: u8) -> Outcome
    ensures { result ≡ outcome_of k caller }
{
    let a = answer_of(k, caller);
    let running = first_ready(k);
    let woken_flags = k.woken;
    let finished_flags = k.finished;
    let woken = mask_of(woken_flags);
    let finished = mask_of(finished_flags);
    Outcome {
        code: 0,
        running: running,
        woken: woken,
        finished: finished,
        message: a.message,
        datum: a.datum,
    }
}

// The result of a refused step: its number, the running thread, and nothing else.
fn refused_outcome(code: u8, running: u8) -> Outcome
    ensures { result ≡ refused_outcome code running }
{
    Outcome {
        code: code,
        running: running,
        woken: 0,
        finished: 0,
        message: 0,
        datum: 0,
    }
}

// The clock after an accepted step: a tick advances it.
fn clock_after(clock: Clock, kind: u8) -> Clock
    ensures { result ≡ clock_after clock kind }
{
    if kind == Kind::Tick as u8 {
        let mut r = clock;
        r.time = advance(clock.time);
        r
    } else {
        clock
    }
}

// Twice the threads: how many calls settling may continue.
fn budget_of(n: u16) -> u16
    ensures { result ≡ budget_of n }
{
    let rows = used_rows(n);
    2 * rows as u16
}

// An accepted step that has settled: its tables, its clock and its result.
#[tactic(auto, unfolding(crate::specs::Stepping::done_with))]
fn end_step(p: Plant, clock: Clock, s: Step) -> Stepped
    ensures { result ≡ done_with p clock s }
{
    let outcome = outcome_of(p.kernel, s.caller);
    let tables = close(p);
    let after = clock_after(clock, s.kind);
    Stepped {
        tables: tables,
        clock: after,
        outcome: outcome,
    }
}

// A step of n threads that has acted settles, and ends.
fn settle_step(p: Plant, n: u16, clock: Clock, s: Step) -> Stepped
    ensures { result ≡ settled_with n p clock s }
{
    let settled = settle(p, budget_of(n));
    end_step(settled, clock, s)
}

// An accepted step of kinds 1 to 14. The kernel part's records go through it alone; the whole tables only where a call is continued.
fn step_kernel(tables: Tables, clock: Clock, s: Step) -> Stepped
    ensures { result ≡ settled_with tables.sizes.threads (with_kernel (started tables s) (acted_on_kernel (started tables s).kernel tables.sizes.threads clock.time s)) clock s }
{
    let n = tables.sizes.threads;
    let kind = s.kind as u16;
    let k = act_on_kernel(
        begin(tables.kernel, cause_of(kind).number()),
        n,
        clock.time,
        s,
    );
    if running_free(k) {
        let outcome = outcome_of(k, s.caller);
        let after = clock_after(clock, s.kind);
        let mut left = tables;
        left.kernel = end(k);
        Stepped {
            tables: left,
            clock: after,
            outcome: outcome,
        }
    } else {
        settle_step(set_kernel(open(tables, kind), k), n, clock, s)
    }
}

// An accepted step of kinds 15 to 22.
fn step_box(tables: Tables, clock: Clock, s: Step) -> Stepped
    ensures { result ≡ settled_with tables.sizes.threads (acted_on_box (started tables s) s) clock s }
{
    let n = tables.sizes.threads;
    let p = act_on_box(open(tables, s.kind as u16), s);
    if running_free(p.kernel) {
        end_step(p, clock, s)
    } else {
        settle_step(p, n, clock, s)
    }
}

// The running thread as it stands; tables that do not hang together have none.
fn running_at_refusal(running: u8, why: Refusal) -> u8
    ensures { result ≡ running_at_refusal running (number why) }
{
    match why {
        Refusal::Tables => NOBODY,
        _ => running,
    }
}

// A refused step: the very tables and clock that came in.
#[tactic(auto, unfolding(crate::specs::Stepping::refused_with, kernel::specs::Waiters::first_ready))]
fn refuse_step(tables: Tables, clock: Clock, why: Refusal) -> Stepped
    ensures { result ≡ refused_with tables clock (opened tables) (number why) }
{
    let running = running_at_refusal(first_in(tables.kernel.words.ready), why);
    let outcome = refused_outcome(why as u8, running);
    Stepped {
        tables,
        clock,
        outcome,
    }
}

// One step of a thread, an interrupt or the tick, on any tables.
#[tactic(auto, unfolding(crate::specs::Stepping::stepped, library::specs::Acting::acted))]
pub fn step(tables: Tables, clock: Clock, s: Step) -> Stepped
    ensures { result ≡ stepped tables clock s }
{
    match refuse(tables, clock, s) {
        Ok(()) => {
            if s.kind <= Kind::EventWait as u8 {
                step_kernel(tables, clock, s)
            } else {
                step_box(tables, clock, s)
            }
        }
        Err(why) => refuse_step(tables, clock, why),
    }
}

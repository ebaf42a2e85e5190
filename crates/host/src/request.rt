// One step on the tables and the clock that the host owns.
ghost use Rattle.std.specs.Prelude.{◌≡◌};
ghost use Rattle.steps.specs.Stepping.{stepped};
ghost use Rattle.host.specs.Request.{step_of, result_of, step_answered};

use kernel::clock::{Clock, tick};
use kernel::kinds::Kind;
use library::calls::Step;
use library::tables::Tables;
use steps::stepping::{Outcome, step};

// A step as a host hands it over; `unused` fills the place before `a`.
#[repr(C)]
#[derive(Clone, Copy)]
pub struct Request {
    pub kind: u8,
    pub caller: u8,
    pub object: u8,
    pub unused: u8,
    pub a: u32,
    pub timeout: u32,
}

// A step's result as a host gets it. The masks have bit i for thread i.
#[repr(C)]
#[derive(Clone, Copy)]
pub struct StepResult {
    // Stays a number, 0 where the step was accepted: C reads this struct as nil.h lays it out.
    pub code: u16,
    pub running: u16,
    pub woken: u16,
    pub finished: u16,
    pub message: i32,
    pub datum: u32,
}

// A step made by value: the tables that it leaves, its result, whether it was accepted, and whether it advances the clock.
// Flags beside the tables: an `Option` of them copies them once more, which took 6 per cent of a step's instructions (docs/DESIGN-PASS.md).
#[derive(Clone, Copy)]
struct Answered {
    pub tables: Tables,
    pub result: StepResult,
    pub accepted: bool,
    pub ticks: bool,
}

// Stays a function: docs/FUNCTIONS.md names its law `request-step-of-one`.
pub fn step_of(q: Request) -> Step
    ensures { result ≡ step_of q }
{
    Step {
        kind: q.kind,
        caller: q.caller,
        object: q.object,
        a: q.a,
        timeout: q.timeout,
    }
}

impl From<Outcome> for StepResult {
    ghost from_gives = { λ o r. r ≡ result_of o };

    fn from(o: Outcome) -> StepResult {
        StepResult {
            code: o.code as u16,
            running: o.running as u16,
            woken: o.woken,
            finished: o.finished,
            message: o.message,
            datum: o.datum,
        }
    }
}

// The step, by value.
#[tactic(auto, unfolding(crate::specs::Request::step_answered))]
fn answer(tables: Tables, clock: Clock, q: Request) -> Answered
    ensures { result ≡ step_answered tables clock q }
{
    let s = step_of(q);
    let done = step(tables, clock, s);
    let after = done.tables;
    let outcome = done.outcome;
    let result = StepResult::from(outcome);
    let accepted = outcome.code == 0;
    let is_tick = q.kind == Kind::Tick as u8;
    Answered {
        tables: after,
        result: result,
        accepted: accepted,
        ticks: accepted && is_tick,
    }
}

// Makes one step. The tables and the clock are written only at an accepted step, and the clock only at a tick, which advances it
// where it lies.
#[unsafe(no_mangle)]
pub extern "C" fn nil_step(
    tables: &mut Tables,
    clock: &mut Clock,
    request: &Request,
    res: &mut StepResult,
)
    ensures { (tables.new ≡ (stepped tables.old clock.old (step_of request.now)).tables)
        × (clock.new ≡ (stepped tables.old clock.old (step_of request.now)).clock)
        × (res.new ≡ result_of (stepped tables.old clock.old (step_of request.now)).outcome) }
{
    let t = *tables;
    let c = *clock;
    let q = *request;
    let done = answer(t, c, q);
    *res = done.result;
    if done.accepted {
        *tables = done.tables;
        if done.ticks {
            tick(clock);
        }
    }
}

// One step. Each function hands on what it was lent to the one of its name in crate host.
ghost use Rattle.std.specs.Prelude.{◌≡◌};
ghost use Rattle.steps.specs.Stepping.{stepped};
ghost use Rattle.host.specs.Request.{step_of, result_of};

use host::request::{Request, StepResult};
use kernel::clock::Clock;
use library::tables::Tables;

// Makes one step. The tables and the clock are written only at an accepted step, and the clock only at a tick, which advances it
// where it lies.
#[unsafe(no_mangle)]
pub extern "C" fn nil_step(
    tables: &mut Tables,
    clock: &mut Clock,
    request: &Request,
    res: &mut StepResult,
)
    ensures { (tables.new ≡ (stepped tables.old clock.old (step_of request.now)).tables)
        × (clock.new ≡ (stepped tables.old clock.old (step_of request.now)).clock)
        × (res.new ≡ result_of (stepped tables.old clock.old (step_of request.now)).outcome) }
{
    host::request::nil_step(tables, clock, request, res);
}

// Seconds, milliseconds and microseconds to ticks and back: the manual's TIME_S2I, TIME_MS2I, TIME_US2I, TIME_I2S, TIME_I2MS and
// TIME_I2US, one function each way over the unit. All round upward, so that no wait ends too soon.
// A refused conversion is refused with `Value`.
ghost use Rattle.std.specs.Prelude.{◌≡◌};
ghost use Rattle.kernel.specs.Told.{told_ticks, told_units};
ghost use Rattle.kernel.specs.Units.{per_second, frequency_of, frequency_fits, rounded_up, in_ticks, of_ticks};

use crate::numbers::{INFINITE, USUAL_FREQUENCY};
use crate::refusals::Refusal;
use crate::time::Interval;

#[derive(Clone, Copy)]
pub enum Unit {
    Seconds,
    Milliseconds,
    Microseconds,
}

// How many of a unit make a second.
pub fn per_second(u: Unit) -> u64
    ensures { result ≡ per_second u }
{
    match u {
        Unit::Seconds => 1,
        Unit::Milliseconds => 1000,
        Unit::Microseconds => 1000000,
    }
}

// The frequency in ticks a second that a caller gives; the usual one where none is given.
pub fn frequency_of(rate: Option<u32>) -> u32
    ensures { result ≡ frequency_of rate }
{
    rate.unwrap_or(USUAL_FREQUENCY)
}

// Whether a frequency is within 1 to 1,000,000.
pub fn frequency_fits(f: u32) -> bool
    ensures { result ≡ frequency_fits f }
{
    1 <= f && f <= 1000000
}

// a / b, rounded upward; 0 where b is 0, which no caller here has.
fn round_up(a: u64, b: u64) -> u64
    ensures { result ≡ rounded_up a b }
{
    if b == 0 { 0 } else { a.div_ceil(b) }
}

// `x` of a unit as ticks; refused where the frequency is out of its range, or the ticks exceed the longest interval.
#[tactic(auto, unfolding(crate::specs::Units::in_ticks))]
pub fn to_ticks(u: Unit, x: u32, rate: Option<u32>) -> Result<Interval, Refusal>
    ensures { told_ticks result ≡ in_ticks u x rate }
{
    let f = frequency_of(rate);
    if !frequency_fits(f) {
        return Err(Refusal::Value);
    }
    let n = round_up(x as u64 * f as u64, per_second(u));
    if n < INFINITE as u64 {
        Ok(Interval(n as u32))
    } else {
        Err(Refusal::Value)
    }
}

// Ticks as a number of a unit; refused where the frequency is out of its range, or the interval is infinite.
#[tactic(auto, unfolding(crate::specs::Units::of_ticks))]
pub fn from_ticks(u: Unit, d: Interval, rate: Option<u32>) -> Result<u64, Refusal>
    ensures { told_units result ≡ of_ticks u d rate }
{
    let f = frequency_of(rate);
    if !frequency_fits(f) || d.0 == INFINITE {
        return Err(Refusal::Value);
    }
    Ok(round_up(d.0 as u64 * per_second(u), f as u64))
}

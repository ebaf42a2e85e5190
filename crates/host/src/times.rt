// System time and intervals for a host: sums, differences and the range test of the manual's chTimeAddX, chTimeDiffX and
// chTimeIsInRangeX, and its conversions TIME_S2I to TIME_I2US. A host's times and intervals are plain numbers of 32 bits.
ghost use Rattle.std.specs.Prelude.{◌≡◌};
ghost use Rattle.kernel.specs.declared.units.Unit.TheVariants.{Seconds, Milliseconds, Microseconds};
ghost use Rattle.host.specs.Times.{added_time, differed_time, in_range_number, ticks_in, ticks_code, units_of, units_code};

use kernel::time::{Interval, SystemTime, add, difference, in_range};
use kernel::units::{Unit, from_ticks, to_ticks};

// The time that lies an interval after a time.
#[unsafe(no_mangle)]
pub extern "C" fn nil_time_add(time: u32, interval: u32) -> u32
    ensures { result ≡ added_time time interval }
{
    let sum = add(SystemTime(time), Interval(interval));
    sum.0
}

// The interval from one time to another.
#[unsafe(no_mangle)]
pub extern "C" fn nil_time_diff(start: u32, end: u32) -> u32
    ensures { result ≡ differed_time start end }
{
    let passed = difference(SystemTime(start), SystemTime(end));
    passed.0
}

// 1 where a time lies from `start` on and before `end`, else 0.
#[unsafe(no_mangle)]
pub extern "C" fn nil_time_in_range(time: u32, start: u32, end: u32) -> u8
    ensures { result ≡ in_range_number time start end }
{
    if in_range(SystemTime(time), SystemTime(start), SystemTime(end)) {
        1
    } else {
        0
    }
}

// So much of a unit in ticks, with code 0; or 0 with code 6.
fn put_ticks(u: Unit, x: u32, frequency: u32, ticks: &mut u32) -> u8
    ensures { (result ≡ ticks_code u x frequency) × (ticks.new ≡ ticks_in u x frequency) }
{
    match to_ticks(u, x, Some(frequency)) {
        Ok(interval) => {
            *ticks = interval.0;
            0
        }
        Err(why) => {
            *ticks = 0;
            why as u8
        }
    }
}

// So many ticks in a unit, with code 0; or 0 with code 6.
fn put_units(u: Unit, ticks: u32, frequency: u32, value: &mut u64) -> u8
    ensures { (result ≡ units_code u ticks frequency) × (value.new ≡ units_of u ticks frequency) }
{
    match from_ticks(u, Interval(ticks), Some(frequency)) {
        Ok(n) => {
            *value = n;
            0
        }
        Err(why) => {
            *value = 0;
            why as u8
        }
    }
}

// Six functions that differ in the unit: C calls each by its own name, and `put_ticks` and `put_units` have what they share.
#[unsafe(no_mangle)]
pub extern "C" fn nil_s2i(seconds: u32, frequency: u32, ticks: &mut u32) -> u8
    ensures { (result ≡ ticks_code Seconds seconds frequency) × (ticks.new ≡ ticks_in Seconds seconds frequency) }
{
    put_ticks(Unit::Seconds, seconds, frequency, ticks)
}

#[unsafe(no_mangle)]
pub extern "C" fn nil_ms2i(milliseconds: u32, frequency: u32, ticks: &mut u32) -> u8
    ensures { (result ≡ ticks_code Milliseconds milliseconds frequency)
        × (ticks.new ≡ ticks_in Milliseconds milliseconds frequency) }
{
    put_ticks(Unit::Milliseconds, milliseconds, frequency, ticks)
}

#[unsafe(no_mangle)]
pub extern "C" fn nil_us2i(microseconds: u32, frequency: u32, ticks: &mut u32) -> u8
    ensures { (result ≡ ticks_code Microseconds microseconds frequency)
        × (ticks.new ≡ ticks_in Microseconds microseconds frequency) }
{
    put_ticks(Unit::Microseconds, microseconds, frequency, ticks)
}

#[unsafe(no_mangle)]
pub extern "C" fn nil_i2s(ticks: u32, frequency: u32, seconds: &mut u64) -> u8
    ensures { (result ≡ units_code Seconds ticks frequency) × (seconds.new ≡ units_of Seconds ticks frequency) }
{
    put_units(Unit::Seconds, ticks, frequency, seconds)
}

#[unsafe(no_mangle)]
pub extern "C" fn nil_i2ms(ticks: u32, frequency: u32, milliseconds: &mut u64) -> u8
    ensures { (result ≡ units_code Milliseconds ticks frequency)
        × (milliseconds.new ≡ units_of Milliseconds ticks frequency) }
{
    put_units(Unit::Milliseconds, ticks, frequency, milliseconds)
}

#[unsafe(no_mangle)]
pub extern "C" fn nil_i2us(ticks: u32, frequency: u32, microseconds: &mut u64) -> u8
    ensures { (result ≡ units_code Microseconds ticks frequency)
        × (microseconds.new ≡ units_of Microseconds ticks frequency) }
{
    put_units(Unit::Microseconds, ticks, frequency, microseconds)
}

// Times and intervals. Each function hands on what it was lent to the one of its name in crate host.
ghost use Rattle.std.specs.Prelude.{◌≡◌};
ghost use Rattle.host.specs.Times.{added_time, differed_time, in_range_number, ticks_in, ticks_code, units_of, units_code};
ghost use Rattle.kernel.specs.declared.units.Unit.TheVariants.{Seconds, Milliseconds, Microseconds};

// The time that lies an interval after a time.
#[unsafe(no_mangle)]
pub extern "C" fn nil_time_add(time: u32, interval: u32) -> u32
    ensures { result ≡ added_time time interval }
{
    host::times::nil_time_add(time, interval)
}

// The interval from one time to another.
#[unsafe(no_mangle)]
pub extern "C" fn nil_time_diff(start: u32, end: u32) -> u32
    ensures { result ≡ differed_time start end }
{
    host::times::nil_time_diff(start, end)
}

// 1 where a time lies from `start` on and before `end`, else 0.
#[unsafe(no_mangle)]
pub extern "C" fn nil_time_in_range(time: u32, start: u32, end: u32) -> u8
    ensures { result ≡ in_range_number time start end }
{
    host::times::nil_time_in_range(time, start, end)
}

#[unsafe(no_mangle)]
pub extern "C" fn nil_s2i(seconds: u32, frequency: u32, ticks: &mut u32) -> u8
    ensures { (result ≡ ticks_code Seconds seconds frequency) × (ticks.new ≡ ticks_in Seconds seconds frequency) }
{
    host::times::nil_s2i(seconds, frequency, ticks)
}

#[unsafe(no_mangle)]
pub extern "C" fn nil_ms2i(milliseconds: u32, frequency: u32, ticks: &mut u32) -> u8
    ensures { (result ≡ ticks_code Milliseconds milliseconds frequency)
        × (ticks.new ≡ ticks_in Milliseconds milliseconds frequency) }
{
    host::times::nil_ms2i(milliseconds, frequency, ticks)
}

#[unsafe(no_mangle)]
pub extern "C" fn nil_us2i(microseconds: u32, frequency: u32, ticks: &mut u32) -> u8
    ensures { (result ≡ ticks_code Microseconds microseconds frequency)
        × (ticks.new ≡ ticks_in Microseconds microseconds frequency) }
{
    host::times::nil_us2i(microseconds, frequency, ticks)
}

#[unsafe(no_mangle)]
pub extern "C" fn nil_i2s(ticks: u32, frequency: u32, seconds: &mut u64) -> u8
    ensures { (result ≡ units_code Seconds ticks frequency) × (seconds.new ≡ units_of Seconds ticks frequency) }
{
    host::times::nil_i2s(ticks, frequency, seconds)
}

#[unsafe(no_mangle)]
pub extern "C" fn nil_i2ms(ticks: u32, frequency: u32, milliseconds: &mut u64) -> u8
    ensures { (result ≡ units_code Milliseconds ticks frequency)
        × (milliseconds.new ≡ units_of Milliseconds ticks frequency) }
{
    host::times::nil_i2ms(ticks, frequency, milliseconds)
}

#[unsafe(no_mangle)]
pub extern "C" fn nil_i2us(ticks: u32, frequency: u32, microseconds: &mut u64) -> u8
    ensures { (result ≡ units_code Microseconds ticks frequency)
        × (microseconds.new ≡ units_of Microseconds ticks frequency) }
{
    host::times::nil_i2us(ticks, frequency, microseconds)
}

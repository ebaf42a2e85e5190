// The clock record that the host owns: system time and frequency.
ghost use Rattle.std.specs.Prelude.{◌≡◌};
ghost use Rattle.kernel.specs.Time.{advanced};
ghost use Rattle.kernel.specs.Clock.{ticked_clock};

use crate::time::{Interval, SystemTime};

#[repr(C)]
#[derive(Clone, Copy)]
pub struct Clock {
    pub time: SystemTime,
    pub frequency: u32,
}

// The time one tick later; 4294967295 is followed by 0.
pub fn advance(t: SystemTime) -> SystemTime
    ensures { result ≡ advanced t }
{
    crate::time::add(t, Interval(1))
}

// The clock advanced by one tick where it lies.
pub fn tick(clock: &mut Clock)
    ensures { clock.new ≡ ticked_clock clock.old }
{
    clock.time = advance(clock.time);
}

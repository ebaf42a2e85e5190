// System time and interval, kept apart as two units over the same 32 bits.
// Both operations wrap; the range test compares two wrapped differences.
ghost use Rattle.std.specs.Prelude.{◌≡◌};
ghost use Rattle.kernel.specs.Time.{added, differed, in_range};

#[repr(C)]
#[derive(Clone, Copy)]
pub struct SystemTime(pub u32);

#[repr(C)]
#[derive(Clone, Copy, PartialEq, Eq, PartialOrd, Ord)]
pub struct Interval(pub u32);

// The time that lies an interval after `t`: chTimeAddX.
pub fn add(t: SystemTime, d: Interval) -> SystemTime
    ensures { result ≡ added t d }
{
    SystemTime(t.0.wrapping_add(d.0))
}

// The interval from `start` to `end`: chTimeDiffX.
pub fn difference(start: SystemTime, end: SystemTime) -> Interval
    ensures { result ≡ differed start end }
{
    Interval(end.0.wrapping_sub(start.0))
}

// Whether `t` lies from `start` on and before `end`: chTimeIsInRangeX.
pub fn in_range(t: SystemTime, start: SystemTime, end: SystemTime) -> bool
    ensures { result ≡ in_range t start end }
{
    difference(start, t) < difference(start, end)
}

// Plain sleeps: for an interval, and until a time.
ghost use Rattle.std.specs.Prelude.{◌≡◌};
ghost use Rattle.kernel.specs.Delay.{slept_for, slept_until};

use crate::kinds::Kind;
use crate::moves::sleep;
use crate::numbers::NOWHERE;
use crate::records::{Call, Kernel};
use crate::states::State;
use crate::time::{Interval, SystemTime, difference};

// Thread i sleeps for an interval: chThdSleep. A step refuses 0 and infinite before they get here.
#[tactic(auto, unfolding(crate::specs::Delay::slept_for))]
pub fn sleep_for(k: Kernel, i: u8, d: Interval) -> Kernel
    ensures { result ≡ slept_for k i d }
{
    let call = Call {
        kind: Kind::SleepFor as u16,
        object: 0,
        operand: 0,
        timeout: d.0,
    };
    sleep(k, i, State::Sleeping as u16, NOWHERE, call)
}

// Thread i sleeps from `now` until a time; its full timeout is the interval slept: chThdSleepUntil.
#[tactic(auto, unfolding(crate::specs::Delay::slept_until))]
pub fn sleep_until(k: Kernel, i: u8, now: SystemTime, until: SystemTime) -> Kernel
    ensures { result ≡ slept_until k i now until }
{
    let d = difference(now, until);
    let call = Call {
        kind: Kind::SleepUntil as u16,
        object: 0,
        operand: until.0,
        timeout: d.0,
    };
    sleep(k, i, State::Sleeping as u16, NOWHERE, call)
}

// Why a thread woke: the cause that a call has for whomever it wakes, by its kind. `wake` stores it.
ghost use Rattle.std.specs.Prelude.{◌≡◌};
ghost use Rattle.kernel.specs.Causes.{cause_number};
ghost use Rattle.library.specs.Causes.{cause_of};

use kernel::causes::Cause;
use kernel::kinds::Kind;

// The cause by the kind of a step or of a call that is continued. A pool's free and add count as signals; the kinds that wake nobody
// have none.
pub fn cause_of(kind: u16) -> Cause
    ensures { cause_number result ≡ cause_of kind }
{
    match Kind::try_from(kind) {
        Ok(Kind::Tick) => Cause::Tick,
        Ok(Kind::Signal | Kind::BinarySignal | Kind::Free | Kind::Add) => Cause::Signal,
        Ok(Kind::ReleaseFirst | Kind::ReleaseAll) => Cause::Release,
        Ok(Kind::Resume) => Cause::Resume,
        Ok(Kind::EventSignal) => Cause::Event,
        Ok(Kind::Post | Kind::PostAhead) => Cause::Post,
        Ok(Kind::Fetch) => Cause::Fetch,
        Ok(Kind::SemaphoreReset | Kind::MailboxReset) => Cause::Reset,
        _ => Cause::None,
    }
}

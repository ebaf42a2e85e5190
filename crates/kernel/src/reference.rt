// Thread references: one thread may be suspended on each.
ghost use Rattle.std.specs.Prelude.{◌≡◌};
ghost use Rattle.kernel.specs.Reference.{suspended_on, resumed};

use crate::moves::{block, wake};
use crate::records::{Call, Kernel};
use crate::states::State;
use crate::tables::holder_at;

// Thread i is suspended on a reference: chThdSuspendTimeoutS. A step refuses a held reference before it gets here.
#[tactic(auto, unfolding(crate::specs::Reference::suspended_on))]
pub fn suspend(k: Kernel, i: u8, reference: u16, call: Call) -> Kernel
    ensures { result ≡ suspended_on k i reference call }
{
    block(k, i, State::Suspended as u16, reference, call)
}

// The thread that a reference holds is made ready with m; an empty one changes nothing: chThdResumeI.
#[tactic(auto, unfolding(crate::specs::Reference::resumed))]
pub fn resume(k: Kernel, reference: u16, m: i32) -> Kernel
    ensures { result ≡ resumed k reference m }
{
    wake(k, holder_at(k.references, reference), m)
}

// Binary semaphores: a semaphore whose signal does nothing once the counter is 1.
ghost use Rattle.std.specs.Prelude.{◌≡◌};
ghost use Rattle.library.specs.Binary.{binary_signalled};

use kernel::records::Kernel;
use kernel::semaphore::signal;
use kernel::tables::counter_at;

// As signal if the counter is below 1, else nothing: chBSemSignalI. Below 1 a signal counts: whether it did is dropped.
#[tactic(auto, unfolding(crate::specs::Binary::binary_signalled))]
pub fn binary_signal(k: Kernel, place: u16) -> Kernel
    ensures { result ≡ binary_signalled k place }
{
    let counters = k.counters;
    if counter_at(counters, place) < 1 {
        signal(k, place).kernel
    } else {
        k
    }
}

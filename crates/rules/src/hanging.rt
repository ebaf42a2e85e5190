// Whether tables hang together: document 01's section of that name, and the words of document 02. They do where no rule is broken.
ghost use Rattle.std.specs.Prelude.{◌≡◌};
ghost use Rattle.library.specs.Tables.{opened};
ghost use Rattle.rules.specs.Hanging.{hangs_together};

use crate::finding::find_broken;
use kernel::clock::Clock;
use library::tables::Tables;

#[tactic(auto, unfolding(crate::specs::Hanging::hangs_together))]
pub fn hangs_together(t: Tables, clock: Clock) -> bool
    ensures { result ≡ hangs_together (opened t) clock }
{
    let found = find_broken(t, clock);
    found.is_none()
}

// Where a call waits, for the line of a waking.
ghost use Rattle.std.specs.Prelude.{◌≡◌};
ghost use Rattle.text.specs.Why.{waited_item};

use crate::items::Item;
use kernel::kinds::Kind;
use kernel::records::Call;

// A sleep and an event wait are on no object.
pub(crate) fn waited_at(call: Call) -> Item
    ensures { result ≡ waited_item call }
{
    let kind = call.kind;
    match Kind::try_from(kind) {
        Ok(Kind::SemaphoreWait) => Item::Lettered(b's', call.object),
        Ok(Kind::QueueWait) => Item::Lettered(b'q', call.object),
        Ok(Kind::Suspend) => Item::Lettered(b'r', call.object),
        Ok(Kind::Post | Kind::PostAhead) => Item::Lettered(b'w', call.object),
        Ok(Kind::Fetch) => Item::Lettered(b'f', call.object),
        Ok(Kind::Alloc) => Item::Lettered(b'p', call.object),
        _ => Item::Dash,
    }
}

// Whether each mailbox's positions hang together.
ghost use Rattle.std.specs.Prelude.{◌≡◌};
ghost use Rattle.rules.specs.MailboxRules.{bad_mailbox};
ghost use Rattle.rules.specs.Options.{told_row};

use crate::limits::used_of;
use crate::searching::first_failing;
use library::ring::positions_fit;
use library::sizes::{Sizes, slots_at};
use library::tables::Mailbox;

// The first mailbox whose positions do not hang together.
pub fn first_bad_mailbox(mailboxes: [Mailbox; 4], z: Sizes) -> Option<u16>
    ensures { result ≡ told_row (bad_mailbox mailboxes z) }
{
    first_failing(used_of(4, z.mailboxes), |m| {
        positions_fit(mailboxes[m as usize].positions, slots_at(z, m))
    })
}

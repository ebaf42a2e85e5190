// Whether each reference holds the thread that is suspended on it, and nobody else.
ghost use Rattle.std.specs.Prelude.{◌≡◌};
ghost use Rattle.rules.specs.ReferenceRules.{reference_of, is_holder, holder_named, bad_holder};
ghost use Rattle.rules.specs.Options.{told_row};

use crate::limits::used_of;
use crate::searching::first_failing;
use kernel::numbers::NOBODY;
use kernel::records::Thread;
use kernel::states::State;
use kernel::words::bit_value;
use library::sizes::Sizes;

// The reference on which a thread is suspended; past all references for one that is not.
pub fn reference_of(t: Thread) -> u16
    ensures { result ≡ reference_of t }
{
    if t.state == State::Suspended as u16 {
        t.place
    } else {
        8
    }
}

// Whether a holder is nobody, or one of n threads.
fn is_holder(holder: u8, n: u16) -> bool
    ensures { result ≡ is_holder holder n }
{
    holder == NOBODY || (holder as u16) < n
}

// Whether a reference's holder is the one of n threads that its word names.
fn holder_fits(holder: u8, word: u16, n: u16) -> bool
    ensures { result ≡ holder_named holder word n }
{
    is_holder(holder, n) && word == bit_value(holder)
}

// The first reference that holds another thread than the one suspended on it; its word has that thread's bit alone.
pub fn first_bad_reference(references: [u8; 8], suspended: [u16; 8], z: Sizes) -> Option<u16>
    ensures { result ≡ told_row (bad_holder references suspended z) }
{
    first_failing(used_of(8, z.references), |r| {
        holder_fits(references[r as usize], suspended[r as usize], z.threads)
    })
}

// Whether each word of the waiting says what a walk over the records gives: who waits at its place.
ghost use Rattle.std.specs.Prelude.{◌≡◌};
ghost use Rattle.rules.specs.Options.{told_row};
ghost use Rattle.rules.specs.WordRules.{word_fits, other_word};

use crate::place_rules::in_use;
use crate::searching::first_failing;
use library::sizes::Sizes;

// A word that is the walk's fits, whether or not its place is in use; so that is asked of the others only.
fn word_fits(z: Sizes, p: u16, word: u16, walked: u16) -> bool
    ensures { result ≡ word_fits z p word walked }
{
    word == walked || !in_use(z, p)
}

// The first place in use whose word is another than the walk's.
pub fn first_bad_word(waiting: [u16; 36], walked: [u16; 36], z: Sizes) -> Option<u16>
    ensures { result ≡ told_row (other_word waiting walked z) }
{
    first_failing(
        36,
        |p| word_fits(z, p, waiting[p as usize], walked[p as usize]),
    )
}

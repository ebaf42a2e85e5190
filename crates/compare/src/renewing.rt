// The words of ready and waiting threads made anew, as a walk over the records gives them.
ghost use Rattle.std.specs.Prelude.{◌≡◌};
ghost use Rattle.compare.specs.Renewed.{word_anew, waiting_anew, renewed};

use crate::cells::Kept;
use kernel::records::Words;
use library::sizes::Sizes;
use rules::place_rules::in_use;
use rules::walking::walk;

// One place's word, if it is in use; the words of other places are no part of the tables.
#[tactic(auto, unfolding(crate::specs::Renewed::word_anew))]
fn renew_word(z: Sizes, right: [u16; 36], p: u16, words: Words) -> Words
    ensures { result ≡ word_anew z right p words }
{
    let mut r = words;
    if in_use(z, p) {
        if p < 36 {
            r.waiting[p as usize] = right[p as usize];
        }
    }
    r
}

#[tactic(auto, unfolding(crate::specs::Renewed::waiting_anew))]
fn renew_waiting(z: Sizes, right: [u16; 36], words: Words) -> Words
    ensures { result ≡ waiting_anew z right words }
{
    let mut r = words;
    for p in 0..36 {
        r = renew_word(z, right, p, r);
    }
    r
}

#[tactic(auto, unfolding(crate::specs::Renewed::renewed))]
pub fn renew_words(a: Kept) -> Kept
    ensures { result ≡ renewed a }
{
    let z = a.tables.sizes;
    let w = walk(a.tables.kernel.threads, z);
    let mut words = a.tables.kernel.words;
    words.ready = w.ready;
    let mut r = a;
    r.tables.kernel.words = renew_waiting(z, w.waiting, words);
    r
}

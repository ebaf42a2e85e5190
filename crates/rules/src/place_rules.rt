// Whether each counter agrees with the threads that are queued at its place.
ghost use Rattle.std.specs.Prelude.{◌≡◌};
ghost use Rattle.kernel.specs.Words.{ones_of};
ghost use Rattle.rules.specs.PlaceRules.{in_use, queue_of, is_idle, counter_fits, place_fits, bad_counter};
ghost use Rattle.rules.specs.Options.{told_row};

use crate::searching::first_failing;
use kernel::records::Thread;
use kernel::states::State;
use kernel::words::count_in;
use library::signs::negative;
use library::sizes::Sizes;

// Whether the sizes put a place to use.
pub fn in_use(z: Sizes, p: u16) -> bool
    ensures { result ≡ in_use z p }
{
    if p < 16 {
        p < z.semaphores
    } else if p < 20 {
        p - 16 < z.pools
    } else if p < 28 {
        p - 20 < z.queues
    } else if p < 32 {
        p - 28 < z.mailboxes
    } else {
        p - 32 < z.mailboxes
    }
}

// The place at which a thread is queued; past all places for one that is not.
pub fn queue_of(t: Thread) -> u16
    ensures { result ≡ queue_of t }
{
    if t.state == State::Queued as u16 {
        t.place
    } else {
        36
    }
}

// A semaphore, or a pool's, at which nobody is queued.
fn is_idle(p: u16, n: u16) -> bool
    ensures { result ≡ is_idle p n }
{
    p < 20 && n == 0
}

// Whether the counter c of a place agrees with the n threads queued there.
fn counter_fits(p: u16, c: i32, n: u16) -> bool
    ensures { result ≡ counter_fits p c n }
{
    if is_idle(p, n) {
        !(c < 0)
    } else {
        c == negative(n)
    }
}

fn place_fits(z: Sizes, p: u16, c: i32, n: u16) -> bool
    ensures { result ≡ place_fits z p c n }
{
    if in_use(z, p) {
        counter_fits(p, c, n)
    } else {
        true
    }
}

// The same by the word of those who are queued. Where nobody is and the counter is 0 it fits, in use or not.
#[tactic(auto, using(crate::proofs::HangingLaws::idle_fits))]
fn word_counted(z: Sizes, p: u16, c: i32, word: u16) -> bool
    ensures { result ≡ place_fits z p c (ones_of word) }
{
    word == 0 && c == 0 || place_fits(z, p, c, count_in(word) as u16)
}

// The first place whose counter does not agree with the threads queued there; they are as many as its word has ones.
pub fn first_bad_place(counters: [i32; 36], waiting: [u16; 36], z: Sizes) -> Option<u16>
    ensures { result ≡ told_row (bad_counter counters waiting z) }
{
    first_failing(
        36,
        |p| word_counted(z, p, counters[p as usize], waiting[p as usize]),
    )
}

// Words beside the records: bit i of a word stands for thread i. One word says who is ready, and one for each place who waits there.
// The two moves keep them, by `note_ready` and `note_asleep`; no step writes a word otherwise.
ghost use Rattle.std.specs.Prelude.{◌≡◌};
ghost use Rattle.kernel.specs.Words.{has_bit, ones_of, first_of, bit_value, with_bit, without_bit, all_ready, fresh_words, waiting_at, noted_ready, noted_asleep};

use crate::numbers::{NOBODY, THREADS};
use crate::records::Words;
use crate::states::State;
use crate::tables::{at, put, used_rows};

// What bit i counts; a word has no bit from 16 on.
pub fn bit_value(i: u8) -> u16
    ensures { result ≡ bit_value i }
{
    if i < THREADS { 1u16 << i } else { 0 }
}

fn with_bit(w: u16, i: u8) -> u16
    ensures { result ≡ with_bit w i }
{
    w | bit_value(i)
}

fn without_bit(w: u16, i: u8) -> u16
    ensures { result ≡ without_bit w i }
{
    w ^ (w & bit_value(i))
}

// Whether a word names thread i.
pub fn has_bit(w: u16, i: u8) -> bool
    ensures { result ≡ has_bit w i }
{
    i < THREADS && (w >> i) % 2 == 1
}

// How many threads a word names.
#[tactic(auto, unfolding(crate::specs::Words::ones_of))]
pub fn count_in(w: u16) -> u8
    ensures { result ≡ ones_of w }
{
    w.count_ones() as u8
}

// The first thread that a word names, or NOBODY.
#[tactic(auto, unfolding(crate::specs::Words::first_of))]
pub fn first_in(w: u16) -> u8
    ensures { result ≡ first_of w }
{
    let zeros = w.trailing_zeros();
    if zeros < 16 { zeros as u8 } else { NOBODY }
}

// The ready word of n threads that are all ready.
fn all_ready(n: u16) -> u16
    ensures { result ≡ all_ready n }
{
    ((1u32 << used_rows(n)) - 1) as u16
}

// All of n threads ready, nobody waiting.
pub fn fresh_words(n: u16) -> Words
    ensures { result ≡ fresh_words n }
{
    Words {
        ready: all_ready(n),
        waiting: [0; 36],
        unused: 0,
    }
}

// Who waits at a place; nobody past all places.
pub fn waiting_at(w: Words, place: u32) -> u16
    ensures { result ≡ waiting_at w place }
{
    at(&w.waiting, place as usize, 0)
}

// Thread i was in a state at a place, and is ready. No function with `note_asleep`: a flag in place of the two calls would hide which is which.
pub fn note_ready(w: Words, i: u8, state: u16, place: u16) -> Words
    ensures { result ≡ noted_ready w i state place }
{
    let mut r = w;
    r.ready = with_bit(w.ready, i);
    if state == State::Queued as u16 {
        let word = waiting_at(w, place as u32);
        put(&mut r.waiting, place as usize, without_bit(word, i));
    }
    r
}

// Thread i is in a state at a place, and no more ready.
pub fn note_asleep(w: Words, i: u8, state: u16, place: u16) -> Words
    ensures { result ≡ noted_asleep w i state place }
{
    let mut r = w;
    r.ready = without_bit(w.ready, i);
    if state == State::Queued as u16 {
        let word = waiting_at(w, place as u32);
        put(&mut r.waiting, place as usize, with_bit(word, i));
    }
    r
}

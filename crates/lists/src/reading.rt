// An entry read from its line. What is read at a place is known to be there or not, and the next part is read behind it; a line is an entry if
// all its parts are there. A word is found by trying those that are printed. A number may have zeros before it.
// The slice and a place are handed each time and are no cursor: each word is tried at the same place, so a cursor would be set back each time.
ghost use Rattle.std.specs.Prelude.{◌-◌, ◌≡◌, length, get_or, drop};
ghost use Rattle.lists.specs.Words.{object_word, field_word};
ghost use Rattle.lists.specs.Reading.{part, no_part, begins, word_part, tried_word, later, last_of, object_read, field_read, is_digit, grown, digits_from, past, number_read, minus_at, below_read, most_of, value_read, entry_read};

use crate::printing::Entry;
use crate::words::{OBJECTS, fields_of, is_signed, put_field, put_object};
use buffers::putting::Sheet;

// What is read at a place: whether it is there, its number, and the place behind it.
// No Option: `entry_read` reads on from the place also where a part is not there (`below_read` has one behind `-0`), and None would lose it.
#[derive(Clone, Copy)]
pub struct Part {
    pub fine: bool,
    pub value: u32,
    pub at: usize,
}

// The digits at a place: their number, and the place behind them.
#[derive(Clone, Copy)]
pub struct Digits {
    pub value: u64,
    pub at: usize,
}

// An entry and the place behind its line, if the line is one.
// No Option: the meaning `entry_read` gives the entry and the place of a line that is none, too.
#[derive(Clone, Copy)]
pub struct Line {
    pub fine: bool,
    pub entry: Entry,
    pub at: usize,
}

// More letters than any word has.
const LETTERS: usize = 32;

fn no_part(at: usize) -> Part
    ensures { result ≡ no_part at }
{
    Part {
        fine: false,
        value: 0,
        at: at,
    }
}

// How many bytes stand from a place on.
fn left(s: &[u8], at: usize) -> usize
    ensures { result ≡ length s.now - at }
{
    if at < s.len() { s.len() - at } else { 0 }
}

// The byte at a place. At the end the last line ends, with a line end or without.
pub(crate) fn byte_at(s: &[u8], at: usize) -> u8
    ensures { result ≡ get_or s.now at 10 }
{
    if at < s.len() { s[at] } else { b'\n' }
}

// The place behind a byte; the end has none behind it.
pub(crate) fn go_past(s: &[u8], at: usize) -> usize
    ensures { result ≡ past s.now at }
{
    if at < s.len() { at + 1 } else { at }
}

// Whether a word stands at a place.
#[tactic(auto, unfolding(crate::specs::Reading::begins))]
fn stands(s: &[u8], at: usize, word: &[u8]) -> bool
    ensures { result ≡ begins (drop at s.now) word.now }
{
    if left(s, at) < word.len() {
        return false;
    }
    for (i, &b) in word.iter().enumerate() {
        if s[at + i] != b {
            return false;
        }
    }
    true
}

// A word at a place, which stands for a number.
#[tactic(auto, unfolding(crate::specs::Reading::word_part))]
fn word_part(s: &[u8], at: usize, k: u32, word: &[u8]) -> Part
    ensures { result ≡ word_part (drop at s.now) at k word.now }
{
    if stands(s, at, word) {
        Part {
            fine: true,
            value: k,
            at: at + word.len(),
        }
    } else {
        no_part(at)
    }
}

// The object o by its word.
#[tactic(auto, unfolding(crate::specs::Reading::tried_word, crate::specs::Words::object_word))]
fn object_part(s: &[u8], at: usize, o: u32) -> Part
    ensures { result ≡ tried_word (drop at s.now) at o (object_word o) }
{
    let mut word = [0u8; LETTERS];
    let mut sheet = Sheet {
        out: &mut word,
        at: 0,
    };
    put_object(&mut sheet, o);
    let n = sheet.at;
    if n < LETTERS {
        word_part(s, at, o, &word[..n])
    } else {
        no_part(at)
    }
}

// The field f of an object by its word.
#[tactic(auto, unfolding(crate::specs::Reading::tried_word, crate::specs::Words::field_word))]
fn field_part(s: &[u8], at: usize, o: u32, f: u32) -> Part
    ensures { result ≡ tried_word (drop at s.now) at f (field_word o f) }
{
    let mut word = [0u8; LETTERS];
    let mut sheet = Sheet {
        out: &mut word,
        at: 0,
    };
    put_field(&mut sheet, o, f);
    let n = sheet.at;
    if n < LETTERS {
        word_part(s, at, f, &word[..n])
    } else {
        no_part(at)
    }
}

fn later(p: Part, q: Part) -> Part
    ensures { result ≡ later p q }
{
    if q.fine { q } else { p }
}

// The object whose word stands at a place.
#[tactic(auto, unfolding(crate::specs::Reading::object_read))]
fn read_object(s: &[u8], at: usize) -> Part
    ensures { result ≡ object_read s.now at }
{
    let mut p = no_part(at);
    for o in 0..OBJECTS {
        p = later(p, object_part(s, at, o));
    }
    p
}

// The field of an object whose word stands at a place.
#[tactic(auto, unfolding(crate::specs::Reading::field_read))]
fn read_field(s: &[u8], at: usize, o: u32) -> Part
    ensures { result ≡ field_read s.now at o }
{
    let mut p = no_part(at);
    for f in 0..fields_of(o) {
        p = later(p, field_part(s, at, o, f));
    }
    p
}

fn is_digit(b: u8) -> bool
    ensures { result ≡ is_digit b }
{
    b'0' <= b && b <= b'9'
}

// A number with one digit more; one that is too large already stays so.
fn grow(v: u64, b: u8) -> u64
    ensures { result ≡ grown v b }
{
    if v < 4294967296 {
        if b < b'0' {
            v * 10
        } else {
            v * 10 + (b - b'0') as u64
        }
    } else {
        v
    }
}

#[tactic(auto, unfolding(crate::specs::Reading::digits_from))]
fn read_digits(s: &[u8], at: usize) -> Digits
    ensures { result ≡ digits_from 0 at (drop at s.now) }
{
    let mut value: u64 = 0;
    let mut i = at;
    // no `for`: the place behind the digits is the answer, also of a place behind the text's end
    while is_digit(byte_at(s, i)) {
        value = grow(value, byte_at(s, i));
        i += 1;
    }
    Digits {
        value: value,
        at: i,
    }
}

// A number that is not above `most`, and the byte `end` behind it.
#[tactic(auto, unfolding(crate::specs::Reading::number_read))]
fn read_number(s: &[u8], at: usize, most: u32, end: u8) -> Part
    ensures { result ≡ number_read s.now at most end }
{
    let d = read_digits(s, at);
    let behind = byte_at(s, d.at);
    if at < d.at && d.value <= most as u64 && behind == end {
        Part {
            fine: true,
            value: d.value as u32,
            at: go_past(s, d.at),
        }
    } else {
        no_part(at)
    }
}

// What is missing to 2^32, of a number above 0.
fn below(p: Part) -> Part
    ensures { result ≡ below_read p }
{
    if p.fine && 1 <= p.value {
        Part {
            fine: true,
            value: 4294967295 - (p.value - 1),
            at: p.at,
        }
    } else {
        no_part(p.at)
    }
}

// The largest number without a sign.
fn most_of(signed: bool) -> u32
    ensures { result ≡ most_of signed }
{
    if signed { 2147483647 } else { 4294967295 }
}

// The 32 bits of a value, and the byte `end` behind it.
#[tactic(auto, unfolding(crate::specs::Reading::value_read))]
fn read_value(s: &[u8], at: usize, signed: bool, end: u8) -> Part
    ensures { result ≡ value_read s.now at signed end }
{
    if signed && byte_at(s, at) == b'-' {
        below(read_number(s, go_past(s, at), 2147483648, end))
    } else {
        read_number(s, at, most_of(signed), end)
    }
}

// The entry whose line begins at a place.
#[tactic(auto, unfolding(crate::specs::Reading::entry_read))]
pub(crate) fn read_entry(s: &[u8], at: usize) -> Line
    ensures { result ≡ entry_read s.now at }
{
    let o = read_object(s, at);
    let n = read_number(s, o.at, 4294967295, b' ');
    let f = read_field(s, n.at, o.value);
    let signed = is_signed(o.value, f.value);
    let old = read_value(s, f.at, signed, b' ');
    let new = read_value(s, old.at, signed, b'\n');
    let entry = Entry {
        object: o.value,
        number: n.value,
        field: f.value,
        old: old.value,
        new: new.value,
    };
    Line {
        fine: o.fine && n.fine && f.fine && old.fine && new.fine,
        entry: entry,
        at: new.at,
    }
}

// A list read from its text, a line an entry. Empty lines are passed over; at a line that is no entry reading stops.
ghost use Rattle.std.specs.Prelude.{◌+◌, ◌≡◌, not, eqb, leb, length};
ghost use Rattle.lists.specs.Telling.{stop_of, told_lines, told_turn};
ghost use Rattle.lists.specs.Lines.{entry_stored, judged, line_after, line_at, kept_line, list_read};

use crate::printing::Entry;
use crate::reading::{byte_at, go_past, read_entry};
use compare::order::{FIELDS, place_of};

// Why reading stopped: a line that is no entry, an entry that names no field, or one for which the list has no room.
#[derive(Clone, Copy)]
pub enum BadLine {
    NoEntry = 1,
    NoField = 2,
    NoRoom = 3,
}

const LAST_LINE: u32 = 4294967295;

// A text under way: the place in it and the number of the line there, from 1 on; the place in the list; and why reading stopped, if it did.
#[derive(Clone, Copy)]
pub struct Lines {
    pub at: usize,
    pub line: u32,
    pub to: usize,
    pub stopped: Option<BadLine>,
}

// One line: what is known behind it, and the entry that is to be stored, if there is one.
#[derive(Clone, Copy)]
struct Turn {
    next: Lines,
    entry: Option<Entry>,
}

fn has_room(len: usize, at: usize) -> bool
    ensures { result ≡ leb (at + 5) len }
{
    // so that at + 5 does not pass the largest number
    at <= len && 5 <= len - at
}

// The entry at a place of the list; nothing where it has no room.
#[tactic(auto, unfolding(crate::specs::Lines::entry_stored))]
fn store(list: &mut [u32], at: usize, x: Entry)
    ensures { list.new ≡ entry_stored list.old at x }
{
    if has_room(list.len(), at) {
        list[at] = x.object;
        list[at + 1] = x.number;
        list[at + 2] = x.field;
        list[at + 3] = x.old;
        list[at + 4] = x.new;
    }
}

// Why a line stops the reading, if it does.
#[tactic(auto, unfolding(crate::specs::Lines::judged))]
fn judge(fine: bool, x: Entry, room: bool) -> Option<BadLine>
    ensures { stop_of result ≡ judged fine x room }
{
    let k = place_of(x.object, x.number, x.field);
    if fine {
        if k == FIELDS as u32 {
            Some(BadLine::NoField)
        } else if room {
            None
        } else {
            Some(BadLine::NoRoom)
        }
    } else {
        Some(BadLine::NoEntry)
    }
}

// The number of the next line; there are not so many.
fn next_line(n: u32) -> u32
    ensures { result ≡ line_after n }
{
    if n < LAST_LINE { n + 1 } else { n }
}

// Whether reading has stopped.
pub(crate) fn has_stopped(x: Lines) -> bool
    ensures { result ≡ not (eqb (told_lines x).code 0) }
{
    x.stopped.is_some()
}

// The line at a place, with so much room in the list. At the end, and where reading has stopped, all stays.
#[tactic(auto, unfolding(crate::specs::Lines::line_at))]
fn line_at(s: &[u8], x: Lines, room: usize) -> Turn
    ensures { told_turn result ≡ line_at s.now (told_lines x) room }
{
    let at = x.at;
    if has_stopped(x) || s.len() <= at {
        return Turn {
            next: x,
            entry: None,
        };
    }
    let line = next_line(x.line);
    if byte_at(s, at) == b'\n' {
        return Turn {
            next: Lines {
                at: go_past(s, at),
                line,
                ..x
            },
            entry: None,
        };
    }
    let e = read_entry(s, at);
    let entry = e.entry;
    match judge(e.fine, entry, has_room(room, x.to)) {
        None => Turn {
            next: Lines {
                at: e.at,
                line,
                to: x.to + 5,
                stopped: None,
            },
            entry: Some(entry),
        },
        Some(why) => Turn {
            next: Lines {
                stopped: Some(why),
                ..x
            },
            entry: None,
        },
    }
}

// The list behind a line, whose entry goes to a place.
#[tactic(auto, unfolding(crate::specs::Lines::kept_line))]
fn keep_line(list: &mut [u32], at: usize, t: Turn)
    ensures { list.new ≡ kept_line list.old at (told_turn t) }
{
    if let Some(entry) = t.entry {
        store(list, at, entry);
    }
}

// The entries of a text from the list's beginning on, five numbers each. Each line has a byte or more, so there are no more lines than bytes.
#[tactic(auto, unfolding(crate::specs::Lines::list_read))]
pub fn read_list(s: &[u8], list: &mut [u32]) -> Lines
    ensures lines { told_lines result ≡ (list_read s.now list.old).lines }
    ensures list { list.new ≡ (list_read s.now list.old).list }
{
    let mut x = Lines {
        at: 0,
        line: 1,
        to: 0,
        stopped: None,
    };
    for i in 0..s.len() {
        let t = line_at(s, x, list.len());
        keep_line(list, x.to, t);
        x = t.next;
    }
    x
}

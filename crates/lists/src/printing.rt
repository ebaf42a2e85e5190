// A list as text, a line an entry: `WORD NUMBER FIELD OLD NEW`.
ghost use Rattle.std.specs.Prelude.{◌/◌, ◌≡◌, length};
ghost use Rattle.buffers.specs.Put.{Put, Puts};
ghost use Rattle.lists.specs.Printing.{value_text, entry_text, entry_in, list_text};

use crate::words::{is_signed, put_field, put_object};
use buffers::putting::Sheet;

// An entry of a list, as the comparison has it: old and new are 32 bits.
#[derive(Clone, Copy)]
pub struct Entry {
    pub object: u32,
    pub number: u32,
    pub field: u32,
    pub old: u32,
    pub new: u32,
}

// The numbers from here on are those below 0, where the field is signed.
const BELOW: u32 = 2147483648;

#[tactic(auto, unfolding(crate::specs::Printing::value_text))]
fn put_value(sheet: &mut Sheet, signed: bool, v: u32)
    ensures { Puts sheet.old sheet.new (value_text signed v) }
{
    if signed && BELOW <= v {
        sheet.put_byte(b'-');
        sheet.put_number(4294967296 - v as u64);
    } else {
        sheet.put_number(v as u64);
    }
}

// An entry's line.
#[tactic(auto, unfolding(crate::specs::Printing::entry_text))]
pub(crate) fn put_entry(sheet: &mut Sheet, x: Entry)
    ensures { Puts sheet.old sheet.new (entry_text x) }
{
    let signed = is_signed(x.object, x.field);
    put_object(sheet, x.object);
    sheet.put_number(x.number as u64);
    sheet.put_byte(b' ');
    put_field(sheet, x.object, x.field);
    put_value(sheet, signed, x.old);
    sheet.put_byte(b' ');
    put_value(sheet, signed, x.new);
    sheet.put_byte(b'\n');
}

// Entry i of a list of numbers, five an entry, as `compare` lists them.
#[tactic(auto, unfolding(crate::specs::Printing::entry_in))]
pub(crate) fn entry_in(list: &[u32], i: usize) -> Entry
    ensures { result ≡ entry_in list.now i }
{
    if i < list.len() / 5 {
        let at = i * 5;
        Entry {
            object: list[at],
            number: list[at + 1],
            field: list[at + 2],
            old: list[at + 3],
            new: list[at + 4],
        }
    } else {
        Entry {
            object: 0,
            number: 0,
            field: 0,
            old: 0,
            new: 0,
        }
    }
}

#[tactic(auto, unfolding(crate::specs::Printing::list_text))]
fn put_entries(sheet: &mut Sheet, list: &[u32])
    ensures { Puts sheet.old sheet.new (list_text list.now) }
{
    for i in 0..list.len() / 5 {
        put_entry(sheet, entry_in(list, i));
    }
}

// All entries of a list, at a place of a lent buffer. The answer is the place behind them.
// Buffer and place stand apart: this is a public signature, and its contract `Put` speaks of the lent slice.
pub fn put_list(out: &mut [u8], at: usize, list: &[u32]) -> usize
    ensures { Put out.old out.new at result (list_text list.now) }
{
    let mut sheet = Sheet { out, at };
    put_entries(&mut sheet, list);
    sheet.at
}

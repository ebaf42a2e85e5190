// Rows of items: words, and numbers in decimal, put on a sheet one behind the other.
ghost use Rattle.std.specs.Prelude.{◌≡◌, replicate, slice_index_or};
ghost use Rattle.buffers.specs.Put.{Puts};
ghost use Rattle.text.specs.Rows.{letter, word_text, signed_text, cause_word, field, fields, cells_in, cell_of, cells_text, row_text, listed, brief, no_row};
ghost use Rattle.text.specs.declared.items.Cells.TheVariants.{Empty};

use buffers::putting::Sheet;
use kernel::causes::Cause;
use library::calls::as_signed;
use library::mailbox::message_at;
use library::pool::{listed_at, mark_at};
use library::signs::magnitude;
use library::tables::{Mailbox, Pool};

// What stands in a row behind its word: nothing, the line's end, a dash, a number without a blank before it, a number, a long one, one
// with its sign, one with a letter before it, or the word of a cause.
#[derive(Clone, Copy)]
pub enum Item {
    Nothing,
    End,
    Dash,
    Plain(u32),
    Number(u32),
    Long(u64),
    Signed(i32),
    Lettered(u8, u16),
    Cause(u32),
}

// What a row lists behind its items: nothing, the first messages of a mailbox, the first free objects of a pool, or a pool's marks.
#[derive(Clone, Copy)]
pub enum Cells {
    Empty,
    Messages(Mailbox, u8),
    Objects(Pool, u8),
    Marks(Pool),
}

// A row: its word, filled up with zeros; up to fifteen items; what it lists behind them; and its end.
// The word is no `str`: the meanings of the rows (`listing`, specs/Rows.antt) have its nine bytes, with the zeros.
#[derive(Clone, Copy)]
pub struct Line {
    pub word: [u8; 9],
    pub items: [Item; 15],
    pub cells: Cells,
    pub end: Item,
}

// A row of a word and up to fifteen items, which lists something. (`array::from_fn` for the fifteen was tried: the proof did not close.)
pub(crate) fn listing(word: [u8; 9], items: &[Item], cells: Cells) -> Line
    ensures { result ≡ listed word items.now cells }
{
    let none = Item::Nothing;
    Line {
        word: word,
        items: [
            at_or(items, 0, none),
            at_or(items, 1, none),
            at_or(items, 2, none),
            at_or(items, 3, none),
            at_or(items, 4, none),
            at_or(items, 5, none),
            at_or(items, 6, none),
            at_or(items, 7, none),
            at_or(items, 8, none),
            at_or(items, 9, none),
            at_or(items, 10, none),
            at_or(items, 11, none),
            at_or(items, 12, none),
            at_or(items, 13, none),
            at_or(items, 14, none),
        ],
        cells: cells,
        end: Item::End,
    }
}

// A row of a word and one item or two.
pub(crate) fn brief(word: [u8; 9], a: Item, b: Item) -> Line
    ensures { result ≡ brief word a b }
{
    listing(word, &[a, b], Cells::Empty)
}

// A row without a word: a plain number first, and up to six items.
pub(crate) fn numbered(items: &[Item]) -> Line
    ensures { result ≡ listed (replicate 9 0) items.now Empty }
{
    listing([0; 9], items, Cells::Empty)
}

// A row of which nothing is shown.
pub(crate) fn no_row() -> Line
    ensures { result ≡ no_row }
{
    Line {
        word: [0; 9],
        items: [Item::Nothing; 15],
        cells: Cells::Empty,
        end: Item::Nothing,
    }
}

// What stands at a place; another value behind the end.
pub(crate) fn at_or<T: Copy>(xs: &[T], i: usize, none: T) -> T
    ensures { result ≡ slice_index_or xs.now i none }
{
    match xs.get(i) {
        Some(&x) => x,
        None => none,
    }
}

fn put_signed(sheet: &mut Sheet, m: i32)
    ensures { Puts sheet.old sheet.new (signed_text m) }
{
    let size = magnitude(m);
    if m < 0 {
        sheet.put_byte(b'-');
        sheet.put_number(size as u64);
    } else {
        sheet.put_number(size as u64);
    }
}

// A cause in words.
fn cause_word(cause: u32) -> [u8; 9]
    ensures { result ≡ cause_word cause }
{
    match Cause::try_from(cause) {
        Ok(Cause::Signal) => *b"signal\0\0\0",
        Ok(Cause::Release) => *b"release\0\0",
        Ok(Cause::Resume) => *b"resume\0\0\0",
        Ok(Cause::Event) => *b"event\0\0\0\0",
        Ok(Cause::Post) => *b"post\0\0\0\0\0",
        Ok(Cause::Fetch) => *b"fetch\0\0\0\0",
        Ok(Cause::Reset) => *b"reset\0\0\0\0",
        Ok(Cause::Tick) => *b"tick\0\0\0\0\0",
        _ => *b"none\0\0\0\0\0",
    }
}

// A letter of a word, or none.
fn put_letter(sheet: &mut Sheet, b: u8)
    ensures { Puts sheet.old sheet.new (letter b) }
{
    if b != 0 {
        sheet.put_byte(b);
    }
}

#[tactic(auto, unfolding(crate::specs::Rows::word_text))]
fn put_letters(sheet: &mut Sheet, word: [u8; 9])
    ensures { Puts sheet.old sheet.new (word_text word) }
{
    for &b in &word {
        put_letter(sheet, b);
    }
}

// An item, behind a blank where it is neither nothing nor the line's end nor plain.
fn put_field(sheet: &mut Sheet, x: Item)
    ensures { Puts sheet.old sheet.new (field x) }
{
    match x {
        Item::Nothing => {}
        Item::End => sheet.put_byte(b'\n'),
        Item::Dash => sheet.put_word(b" -"),
        Item::Plain(n) => sheet.put_number(n as u64),
        Item::Number(n) => {
            sheet.put_byte(b' ');
            sheet.put_number(n as u64);
        }
        Item::Long(n) => {
            sheet.put_byte(b' ');
            sheet.put_number(n);
        }
        Item::Signed(m) => {
            sheet.put_byte(b' ');
            put_signed(sheet, m);
        }
        Item::Lettered(b, n) => {
            sheet.put_byte(b' ');
            sheet.put_byte(b);
            sheet.put_number(n as u64);
        }
        Item::Cause(n) => {
            sheet.put_byte(b' ');
            put_letters(sheet, cause_word(n));
        }
    }
}

fn put_items(sheet: &mut Sheet, items: &[Item])
    ensures { Puts sheet.old sheet.new (fields items.now) }
{
    for &x in items {
        put_field(sheet, x);
    }
}

// How many things a row lists.
fn cells_in(cells: Cells) -> u8
    ensures { result ≡ cells_in cells }
{
    match cells {
        Cells::Empty => 0,
        Cells::Messages(_, n) => n,
        Cells::Objects(_, n) => n,
        Cells::Marks(_) => 32,
    }
}

// What it lists at j.
fn cell(cells: Cells, j: u8) -> Item
    ensures { result ≡ cell_of cells j }
{
    match cells {
        Cells::Empty => Item::Nothing,
        Cells::Messages(b, _) => Item::Signed(as_signed(message_at(b, j as u16))),
        Cells::Objects(p, _) => Item::Number(listed_at(p, j as u16) as u32),
        Cells::Marks(p) => Item::Number(mark_at(p, j) as u32),
    }
}

// All that a row lists.
#[tactic(auto, unfolding(crate::specs::Rows::cells_text))]
fn put_cells(sheet: &mut Sheet, cells: Cells)
    ensures { Puts sheet.old sheet.new (cells_text cells) }
{
    for j in 0..cells_in(cells) {
        put_field(sheet, cell(cells, j));
    }
}

// A row: its word, its items, what it lists, and its end.
#[tactic(auto, unfolding(crate::specs::Rows::row_text))]
pub(crate) fn put_row(sheet: &mut Sheet, r: Line)
    ensures { Puts sheet.old sheet.new (row_text r) }
{
    let items = r.items;
    put_letters(sheet, r.word);
    put_items(sheet, &items);
    put_cells(sheet, r.cells);
    put_field(sheet, r.end);
}

// The words of docs/COMPARE.md, each with the blank behind it.
ghost use Rattle.std.specs.Prelude.{◌≡◌};
ghost use Rattle.buffers.specs.Put.{Puts};
ghost use Rattle.lists.specs.Words.{object_word, thread_word, placed, box_word, pool_word, clock_word, field_word, fields_of, is_signed};

use buffers::putting::Sheet;

// Objects and fields are numbers: an entry is five numbers, which C reads in a list of `nil_compare` and which a line holds.
// How many objects have a word.
pub(crate) const OBJECTS: u32 = 8;

#[tactic(auto, unfolding(crate::specs::Words::object_word))]
pub(crate) fn put_object(sheet: &mut Sheet, object: u32)
    ensures { Puts sheet.old sheet.new (object_word object) }
{
    match object {
        0 => sheet.put_word(b"thread "),
        1 => sheet.put_word(b"reference "),
        2 => sheet.put_word(b"queue "),
        3 => sheet.put_word(b"semaphore "),
        4 => sheet.put_word(b"mailbox "),
        5 => sheet.put_word(b"pool "),
        6 => sheet.put_word(b"clock "),
        7 => sheet.put_word(b"steps "),
        _ => {}
    }
}

#[tactic(auto, unfolding(crate::specs::Words::thread_word))]
fn put_thread_field(sheet: &mut Sheet, field: u32)
    ensures { Puts sheet.old sheet.new (thread_word field) }
{
    match field {
        0 => sheet.put_word(b"state "),
        1 => sheet.put_word(b"place "),
        2 => sheet.put_word(b"remaining "),
        3 => sheet.put_word(b"pending "),
        4 => sheet.put_word(b"awaited "),
        5 => sheet.put_word(b"message "),
        6 => sheet.put_word(b"call.kind "),
        7 => sheet.put_word(b"call.object "),
        8 => sheet.put_word(b"call.operand "),
        9 => sheet.put_word(b"call.timeout "),
        10 => sheet.put_word(b"answer.message "),
        11 => sheet.put_word(b"answer.datum "),
        12 => sheet.put_word(b"cause "),
        13 => sheet.put_word(b"step "),
        _ => {}
    }
}

// A word and a place in brackets.
fn put_placed(sheet: &mut Sheet, word: &[u8], i: u32)
    ensures { Puts sheet.old sheet.new (placed word.now i) }
{
    sheet.put_word(word);
    sheet.put_word(b"[");
    sheet.put_number(i as u64);
    sheet.put_word(b"] ");
}

#[tactic(auto, unfolding(crate::specs::Words::box_word))]
fn put_box_field(sheet: &mut Sheet, field: u32)
    ensures { Puts sheet.old sheet.new (box_word field) }
{
    match field {
        0 => sheet.put_word(b"writers "),
        1 => sheet.put_word(b"readers "),
        2 => sheet.put_word(b"read "),
        3 => sheet.put_word(b"write "),
        4 => sheet.put_word(b"count "),
        5 => sheet.put_word(b"reset "),
        _ => put_placed(sheet, b"messages", field - 6),
    }
}

#[tactic(auto, unfolding(crate::specs::Words::pool_word))]
fn put_pool_field(sheet: &mut Sheet, field: u32)
    ensures { Puts sheet.old sheet.new (pool_word field) }
{
    if field == 0 {
        sheet.put_word(b"counter ")
    } else if field == 1 {
        sheet.put_word(b"length ")
    } else if field < 34 {
        put_placed(sheet, b"list", field - 2)
    } else {
        put_placed(sheet, b"marks", field - 34)
    }
}

fn put_clock_field(sheet: &mut Sheet, field: u32)
    ensures { Puts sheet.old sheet.new (clock_word field) }
{
    if field == 0 {
        sheet.put_word(b"time ")
    } else {
        sheet.put_word(b"frequency ")
    }
}

#[tactic(auto, unfolding(crate::specs::Words::field_word))]
pub(crate) fn put_field(sheet: &mut Sheet, object: u32, field: u32)
    ensures { Puts sheet.old sheet.new (field_word object field) }
{
    match object {
        0 => put_thread_field(sheet, field),
        1 => sheet.put_word(b"holder "),
        2 => sheet.put_word(b"counter "),
        3 => sheet.put_word(b"counter "),
        4 => put_box_field(sheet, field),
        5 => put_pool_field(sheet, field),
        6 => put_clock_field(sheet, field),
        _ => sheet.put_word(b"number "),
    }
}

// How many fields a row of an object has.
#[tactic(auto, unfolding(crate::specs::Words::fields_of))]
pub(crate) fn fields_of(object: u32) -> u32
    ensures { result ≡ fields_of object }
{
    match object {
        0 => 14,
        1 => 1,
        2 => 1,
        3 => 1,
        4 => 22,
        5 => 66,
        6 => 2,
        7 => 1,
        _ => 0,
    }
}

// Whether a field is shown with its sign.
#[tactic(auto, unfolding(crate::specs::Words::is_signed))]
pub(crate) fn is_signed(object: u32, field: u32) -> bool
    ensures { result ≡ is_signed object field }
{
    match object {
        0 => field == 5 || field == 10,
        2 => true,
        3 => true,
        4 => field < 2,
        5 => field == 0,
        _ => false,
    }
}

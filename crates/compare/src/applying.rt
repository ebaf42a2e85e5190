// A list applied to tables, entry by entry. Any list and any tables have a result.
ghost use Rattle.std.specs.Prelude.{◌%◌, ◌≡◌, not};
ghost use Rattle.kernel.specs.Walk.{bit};
ghost use Rattle.compare.specs.Held.{limit_of};
ghost use Rattle.compare.specs.Applied.{is_field, stored_named, applied_list};

use crate::cells::Kept;
use crate::laying::width_of;
use crate::order::{FIELDS, cell_of, place_of};
use crate::renewing::renew_words;
use crate::storing::with_cell;

// What a list made of the tables, and how many of its entries name no field.
#[derive(Clone, Copy)]
pub struct Applied {
    pub kept: Kept,
    pub passed: usize,
}

// A number cut to the width of place i.
#[tactic(auto, unfolding(crate::specs::Held::limit_of))]
fn cut(i: u16, v: u32) -> u32
    ensures { result ≡ v % limit_of i }
{
    let w = width_of(i);
    if w == 1 {
        v % 256
    } else if w == 2 {
        v % 65536
    } else {
        v
    }
}

// The number v in field k, cut to the field's width; nothing where there is no such field.
#[tactic(auto, unfolding(crate::specs::Applied::stored_named))]
fn store_named(a: Kept, k: u32, v: u32) -> Kept
    ensures { result ≡ stored_named a k v }
{
    if k < FIELDS as u32 {
        let i = cell_of(k as u16);
        with_cell(a, i, cut(i, v))
    } else {
        a
    }
}

// 1 for an entry that is passed over.
fn one_passed(k: u32) -> usize
    ensures { result ≡ bit (not (is_field k)) }
{
    if k < FIELDS as u32 { 0 } else { 1 }
}

// Stores what each entry has as new, and makes the words anew.
#[tactic(auto, unfolding(crate::specs::Applied::applied_list))]
pub fn apply(a: Kept, list: &[u32]) -> Applied
    ensures { result ≡ applied_list a list.now }
{
    let n = list.len() / 5;
    let mut r = a;
    let mut passed: usize = 0;
    for i in 0..n {
        let at = i * 5;
        let k = place_of(list[at], list[at + 1], list[at + 2]);
        r = store_named(r, k, list[at + 4]);
        passed += one_passed(k);
    }
    let kept = renew_words(r);
    Applied { kept, passed }
}

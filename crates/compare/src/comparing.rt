// Two sets of tables compared: the list of what differs, as numbers, five an entry: object, number, field, old, new. A list that has no room is not begun.
ghost use Rattle.std.specs.Prelude.{◌+◌, ◌≡◌, cond, List, [], ◌∷◌, leb, length};
ghost use Rattle.std.proofs.lemmas.List.Edits.{sets};
ghost use Rattle.kernel.specs.Told.{code_of};
ghost use Rattle.kernel.specs.Walk.{count_of};
ghost use Rattle.compare.specs.Told.{told_compared};
ghost use Rattle.compare.specs.Changes.{differs};
ghost use Rattle.compare.specs.Order.{reading_of, value_of, counts_of, old_of};
ghost use Rattle.compare.specs.Compared.{listing, listed, unused_slot, size_same, sizes_same, refused, compared, compared_list};

use crate::cells::{Kept, cell_at, size_cell};
use crate::order::{FIELDS, Name, cell_of, counts, name_of};
use kernel::refusals::Refusal;
use library::sizes::Sizes;
use rules::hanging::hangs_together;

// What field k holds.
fn value_of(a: Kept, k: u16) -> u32
    ensures { result ≡ value_of a k }
{
    cell_at(a, cell_of(k))
}

// Whether it counts.
fn counts_at(a: Kept, k: u16) -> bool
    ensures { result ≡ counts_of a k }
{
    counts(a, name_of(k))
}

// What is listed as old: what the field holds, or 0 where it does not count.
fn old_of(a: Kept, k: u16) -> u32
    ensures { result ≡ old_of a k }
{
    if counts_at(a, k) { value_of(a, k) } else { 0 }
}

// Whether field k is listed.
fn is_changed(a: Kept, b: Kept, k: u16) -> bool
    ensures { result ≡ differs (reading_of a) (reading_of b) k }
{
    counts_at(b, k) && !(counts_at(a, k) && value_of(a, k) == value_of(b, k))
}

// How many of the first n fields are.
#[tactic(auto, unfolding(kernel::specs::Walk::count_of))]
pub fn count_changes(a: Kept, b: Kept, n: u16) -> u16
    ensures { result ≡ count_of (differs (reading_of a) (reading_of b)) n }
{
    let mut count: u16 = 0;
    for k in 0..n {
        if is_changed(a, b, k) {
            count += 1;
        }
    }
    count
}

// Whether five numbers from a place on end within so many.
fn has_room(len: usize, at: usize) -> bool
    ensures { result ≡ leb (at + 5) len }
{
    // so that at + 5 does not pass the largest number
    at <= len && 5 <= len - at
}

// One entry at a place of the list; nothing where it has no room. (`Sheet` of `buffers` is of bytes, and this list of numbers.)
fn put_entry(list: &mut [u32], at: usize, x: Name, old: u32, new: u32)
    ensures { list.new ≡ cond (leb (at + 5) (length list.old)) (sets list.old at (x.object ∷ x.number ∷ x.field ∷ old ∷ new ∷ [])) list.old }
{
    if has_room(list.len(), at) {
        list[at] = x.object as u32;
        list[at + 1] = x.number as u32;
        list[at + 2] = x.field as u32;
        list[at + 3] = old;
        list[at + 4] = new;
    }
}

// The entries of the first n fields from the list's beginning on, and how many they are; nothing is written where the room is too small.
#[tactic(auto, unfolding(crate::specs::Compared::listing, crate::specs::Compared::listed))]
pub fn list_changes(a: Kept, b: Kept, n: u16, list: &mut [u32]) -> Result<u16, Refusal>
    ensures { (told_compared result ≡ listing a b n (length list.old)) × (list.new ≡ listed a b n list.old) }
{
    let count = count_changes(a, b, n);
    if list.len() < count as usize * 5 {
        return Err(Refusal::Room);
    }
    let mut at: usize = 0;
    for k in 0..n {
        if is_changed(a, b, k) {
            put_entry(list, at, name_of(k), old_of(a, k), value_of(b, k));
            at += 5;
        }
    }
    Ok(count)
}

// The slots of a mailbox that is not in use are no part of the sizes.
fn is_unused_slot(z: Sizes, f: u16) -> bool
    ensures { result ≡ unused_slot z f }
{
    6 <= f && z.mailboxes <= f - 6
}

// Whether number f of the sizes is the same.
fn size_same(y: Sizes, z: Sizes, f: u16) -> bool
    ensures { result ≡ size_same y z f }
{
    is_unused_slot(z, f) || size_cell(y, f) == size_cell(z, f)
}

#[tactic(auto, unfolding(crate::specs::Compared::sizes_same))]
fn sizes_same(y: Sizes, z: Sizes) -> bool
    ensures { result ≡ sizes_same y z }
{
    for f in 0..10 {
        if !size_same(y, z, f) {
            return false;
        }
    }
    true
}

// Why two sets of tables cannot be compared. The first is judged before the second.
#[tactic(auto, unfolding(crate::specs::Compared::refused))]
fn refuse(a: Kept, b: Kept) -> Result<(), Refusal>
    ensures { code_of result ≡ refused a b }
{
    let first = a.tables;
    let second = b.tables;
    if !(hangs_together(first, a.clock) && hangs_together(second, b.clock)) {
        Err(Refusal::Tables)
    } else if !sizes_same(first.sizes, second.sizes) {
        Err(Refusal::Object)
    } else {
        Ok(())
    }
}

// What differs between the first and the second: the entries from the list's beginning on, and how many they are; or a refusal and nothing written.
#[tactic(auto, unfolding(crate::specs::Compared::compared, crate::specs::Compared::compared_list))]
pub fn compare(a: Kept, b: Kept, list: &mut [u32]) -> Result<u16, Refusal>
    ensures { (told_compared result ≡ compared a b (length list.old)) × (list.new ≡ compared_list a b list.old) }
{
    refuse(a, b)?;
    list_changes(a, b, FIELDS, list)
}

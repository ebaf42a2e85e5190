// What a technician reads and writes: two sets of tables compared, as text, and a text applied to tables.
ghost use Rattle.std.specs.Prelude.{◌*◌, min, ◌≡◌, take, replicate};
ghost use Rattle.buffers.specs.Put.{Put};
ghost use Rattle.kernel.specs.Told.{code_of};
ghost use Rattle.compare.specs.Compared.{compared, compared_list};
ghost use Rattle.lists.specs.Printing.{list_text};
ghost use Rattle.lists.specs.Telling.{told_amended, end_of};
ghost use Rattle.lists.specs.Texts.{told_code, told_text, applied_text};

use crate::lines::{Lines, has_stopped, read_list};
use crate::printing::put_list;
use compare::applying::apply;
use compare::cells::Kept;
use compare::comparing::compare;
use kernel::refusals::Refusal;

// Room for an entry of each field.
const ROOM: usize = 611 * 5;

// Tables after a list, and where its reading ended, or stopped: then nothing was applied.
#[derive(Clone, Copy)]
pub struct Amended {
    pub kept: Kept,
    pub lines: Lines,
}

fn smaller(a: usize, b: usize) -> usize
    ensures { result ≡ min a b }
{
    if a < b { a } else { b }
}

// The list of what differs, as text at the buffer's start, and the place behind it; nothing where the comparison is refused.
#[tactic(auto, unfolding(crate::specs::Texts::told_code, crate::specs::Texts::told_text))]
pub fn tell_changes(a: Kept, b: Kept, out: &mut [u8]) -> Result<usize, Refusal>
    ensures code { code_of result ≡ told_code a b }
    ensures text { Put out.old out.new 0 (end_of result) (told_text a b) }
{
    let mut list = [0u32; ROOM];
    let entries = compare(a, b, &mut list)?;
    let n = smaller(entries as usize * 5, ROOM);
    Ok(put_list(out, 0, &list[..n]))
}

// The entries of a text applied, if all its lines are entries.
#[tactic(auto, unfolding(crate::specs::Texts::applied_text))]
pub fn apply_text(a: Kept, s: &[u8]) -> Amended
    ensures { told_amended result ≡ applied_text a s.now }
{
    let mut list = [0u32; ROOM];
    let lines = read_list(s, &mut list);
    if !has_stopped(lines) {
        let n = smaller(lines.to, ROOM);
        let y = apply(a, &list[..n]);
        let kept = y.kept;
        Amended {
            kept: kept,
            lines: lines,
        }
    } else {
        Amended {
            kept: a,
            lines: lines,
        }
    }
}

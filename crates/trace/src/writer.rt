// The trace writer, record by record into a lent buffer. A refusal writes nothing.
ghost use Rattle.std.specs.Prelude.{◌≡◌};
ghost use Rattle.kernel.specs.Told.{code_of};
ghost use Rattle.trace.specs.Told.{told_written};
ghost use Rattle.trace.specs.Writer.{room_refusal, slot_written, sizes_answer, sizes_written, step_answer, step_written};

use crate::numbers::{LONGEST, STEP_BODY, STEP_RECORD, VERSION};
use crate::ordered::{write_u16, write_u32};
use kernel::refusals::Refusal;
use library::calls::Step;
use library::sizes::{Sizes, sizes_fit, slots_at};

// Whether n bytes more go at a place of a buffer of len bytes.
fn judge_room(len: usize, at: usize, n: usize) -> Result<(), Refusal>
    ensures { code_of result ≡ room_refusal len at n }
{
    // so that at + n does not pass the largest number
    if LONGEST < at {
        return Err(Refusal::Long);
    }
    if LONGEST - at < n {
        return Err(Refusal::Long);
    }
    if len < at + n {
        return Err(Refusal::Room);
    }
    Ok(())
}

// The slots of mailbox i, where there is one and a place for them.
fn write_slot(buf: &mut [u8], sizes: Sizes, i: u16)
    ensures { buf.new ≡ slot_written sizes i buf.old }
{
    let n = slots_at(sizes, i);
    let at = 9 + i as usize;
    if i < sizes.mailboxes && at < buf.len() {
        buf[at] = (n % 256) as u8;
    }
}

// The version byte and record 0, at the start of the buffer; and the place behind them, where record 1 goes.
#[tactic(auto, unfolding(crate::specs::Writer::sizes_answer, crate::specs::Writer::sizes_written))]
pub fn write_sizes(buf: &mut [u8], sizes: Sizes) -> Result<usize, Refusal>
    ensures answer { told_written result ≡ sizes_answer sizes buf.old }
    ensures buffer { buf.new ≡ sizes_written sizes buf.old }
{
    if !sizes_fit(sizes) {
        return Err(Refusal::Size);
    }
    let end = 9 + sizes.mailboxes as usize;
    judge_room(buf.len(), 0, end)?;
    buf[0] = VERSION;
    write_u16(buf, 1, 6 + sizes.mailboxes);
    buf[3] = sizes.threads as u8;
    buf[4] = sizes.semaphores as u8;
    buf[5] = sizes.queues as u8;
    buf[6] = sizes.references as u8;
    buf[7] = sizes.mailboxes as u8;
    buf[8] = sizes.pools as u8;
    for i in 0..4 {
        write_slot(buf, sizes, i);
    }
    Ok(end)
}

// Buffer and place stay two arguments: C keeps the place of `nil_write_step` itself, and one of its own is no plainer.
// One step's record, at a place of the buffer; and the place behind it, where the next one goes.
#[tactic(auto, unfolding(crate::specs::Writer::step_answer, crate::specs::Writer::step_written))]
pub fn write_step(buf: &mut [u8], at: usize, step: Step) -> Result<usize, Refusal>
    ensures answer { told_written result ≡ step_answer at buf.old }
    ensures buffer { buf.new ≡ step_written step at buf.old }
{
    judge_room(buf.len(), at, STEP_RECORD)?;
    write_u16(buf, at, STEP_BODY);
    buf[at + 2] = step.kind;
    buf[at + 3] = step.caller;
    buf[at + 4] = step.object;
    write_u32(buf, at + 5, step.a);
    write_u32(buf, at + 9, step.timeout);
    Ok(at + STEP_RECORD)
}

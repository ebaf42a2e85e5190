// What stands at a place of a trace, decoded or refused, and the place after it. Nothing is kept here: `cursor` has the reader that
// keeps hold of the trace and its place, a thin layer over `next_record`.
ghost use Rattle.std.specs.Prelude.{◌≡◌};
ghost use Rattle.kernel.specs.Told.{number, code_of};
ghost use Rattle.trace.specs.Decoding.{number_at, ends_inside, length_refusal, step_refusal, decoded_sizes, decoded_step, told_read, refused_read, opened_read, stepped_read, next_read};

use crate::numbers::{LONGEST, STEP_BODY, STEP_RECORD, VERSION};
use crate::ordered::{byte_at, read_u16, read_u32};
use kernel::refusals::Refusal;
use library::calls::Step;
use library::sizes::{Sizes, sizes_fit};

// A record that was read.
#[derive(Clone, Copy)]
pub enum Record {
    // record 0
    Sizes(Sizes),
    // a later one
    Step(Step),
}

// Why a record is refused, and its number.
#[derive(Clone, Copy)]
pub struct BadRecord {
    pub why: Refusal,
    pub number: usize,
}

// A read: the record, or none at the trace's end, or a refusal; and the place after it, which is the same place unless a record was read.
#[derive(Clone, Copy)]
pub struct Read {
    pub found: Result<Option<Record>, BadRecord>,
    pub next: usize,
}

// The number of the record at a place. Record 0 is 8 to 12 bytes long after the version byte, each later record 13.
pub fn number_at(at: usize) -> usize
    ensures { result ≡ number_at at }
{
    if at < 9 {
        0
    } else {
        (at - 9) / STEP_RECORD + 1
    }
}

// Whether the input ends inside the length or the body of the record at a place.
#[tactic(auto, unfolding(crate::specs::Decoding::ends_inside))]
fn ends_inside(s: &[u8], at: usize) -> bool
    ensures { result ≡ ends_inside s.now at }
{
    if s.len() < at {
        return true;
    }
    let left = s.len() - at;
    if left < 2 {
        return true;
    }
    let n = read_u16(s, at) as usize;
    left - 2 < n
}

// The refusal of the version byte and of record 0's length, if any. A length below 6 is none of 6 plus a byte.
#[tactic(auto, unfolding(crate::specs::Decoding::length_refusal))]
fn judge_head(s: &[u8]) -> Result<(), Refusal>
    ensures { code_of result ≡ length_refusal s.now }
{
    if LONGEST < s.len() {
        return Err(Refusal::Long);
    }
    if byte_at(s, 0) != VERSION {
        return Err(Refusal::Version);
    }
    if ends_inside(s, 1) {
        return Err(Refusal::Cut);
    }
    let n = read_u16(s, 1) as usize;
    let mailboxes = byte_at(s, 7) as usize;
    if n != 6 + mailboxes {
        return Err(Refusal::Length);
    }
    Ok(())
}

// The refusal of a later record's length, if any.
#[tactic(auto, unfolding(crate::specs::Decoding::step_refusal))]
fn judge_step(s: &[u8], at: usize) -> Result<(), Refusal>
    ensures { code_of result ≡ step_refusal s.now at }
{
    if ends_inside(s, at) {
        return Err(Refusal::Cut);
    }
    if read_u16(s, at) != STEP_BODY {
        return Err(Refusal::Length);
    }
    Ok(())
}

// Record 0's body. It ends with the slots of the last mailbox, so those of absent ones are 0.
#[tactic(auto, unfolding(crate::specs::Decoding::decoded_sizes))]
pub fn decode_sizes(body: &[u8]) -> Sizes
    ensures { result ≡ decoded_sizes body.now }
{
    let threads = byte_at(body, 0) as u16;
    let semaphores = byte_at(body, 1) as u16;
    let queues = byte_at(body, 2) as u16;
    let references = byte_at(body, 3) as u16;
    let mailboxes = byte_at(body, 4) as u16;
    let pools = byte_at(body, 5) as u16;
    let a = byte_at(body, 6) as u16;
    let b = byte_at(body, 7) as u16;
    let c = byte_at(body, 8) as u16;
    let d = byte_at(body, 9) as u16;
    let slots = [a, b, c, d];
    Sizes {
        threads: threads,
        semaphores: semaphores,
        queues: queues,
        references: references,
        mailboxes: mailboxes,
        pools: pools,
        slots: slots,
    }
}

// A step's body. Its values are not judged: that is the step's own refusal.
#[tactic(auto, unfolding(crate::specs::Decoding::decoded_step))]
pub fn decode_step(body: &[u8]) -> Step
    ensures { result ≡ decoded_step body.now }
{
    let kind = byte_at(body, 0);
    let caller = byte_at(body, 1);
    let object = byte_at(body, 2);
    let a = read_u32(body, 3);
    let timeout = read_u32(body, 7);
    Step {
        kind: kind,
        caller: caller,
        object: object,
        a: a,
        timeout: timeout,
    }
}

// Nothing was read: the place stays.
fn stop(found: Result<Option<Record>, BadRecord>, at: usize) -> Read
    ensures { result ≡ record { found = found; next = at } }
{
    Read {
        found: found,
        next: at,
    }
}

fn refuse(why: Refusal, at: usize) -> Read
    ensures { told_read result ≡ refused_read (number why) at }
{
    let bad = BadRecord {
        why: why,
        number: number_at(at),
    };
    stop(Err(bad), at)
}

// The version byte and record 0.
#[tactic(auto, unfolding(crate::specs::Decoding::opened_read))]
fn read_head(s: &[u8]) -> Read
    ensures { told_read result ≡ opened_read s.now }
{
    if let Err(why) = judge_head(s) {
        return refuse(why, 0);
    }
    let from = 3;
    let to = from + read_u16(s, 1) as usize;
    let sizes = decode_sizes(&s[from..to]);
    if !sizes_fit(sizes) {
        return refuse(Refusal::Size, 0);
    }
    Read {
        found: Ok(Some(Record::Sizes(sizes))),
        next: to,
    }
}

// A later record, or the end. The decoder is handed the part of the trace that the body is.
#[tactic(auto, unfolding(crate::specs::Decoding::stepped_read))]
fn read_step(s: &[u8], at: usize) -> Read
    ensures { told_read result ≡ stepped_read s.now at }
{
    if at == s.len() {
        return stop(Ok(None), at);
    }
    if let Err(why) = judge_step(s, at) {
        return refuse(why, at);
    }
    let from = at + 2;
    let to = at + STEP_RECORD;
    let step = decode_step(&s[from..to]);
    Read {
        found: Ok(Some(Record::Step(step))),
        next: to,
    }
}

// The record at a place: at place 0 the version byte and record 0, elsewhere a step or the end.
#[tactic(auto, unfolding(crate::specs::Decoding::next_read))]
pub fn next_record(s: &[u8], at: usize) -> Read
    ensures { told_read result ≡ next_read s.now at }
{
    if at == 0 {
        read_head(s)
    } else {
        read_step(s, at)
    }
}

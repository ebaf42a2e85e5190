// The kinds of step, with document 01's numbers. A step has its kind as a byte, an unfinished call keeps it in 16 bits, and a host may
// hand over any number there: so they are numbers in the records, and a kind where one is asked for.
ghost use Rattle.kernel.specs.Kinds.{Decodes};

use crate::refusals::Refusal;

// What a record has for a kind that has no unfinished call.
pub const NO_CALL: u16 = 0;

#[derive(Clone, Copy)]
pub enum Kind {
    Tick = 1,
    SemaphoreWait = 2,
    Signal = 3,
    SemaphoreReset = 4,
    BinarySignal = 5,
    QueueWait = 6,
    ReleaseFirst = 7,
    ReleaseAll = 8,
    Suspend = 9,
    Resume = 10,
    SleepFor = 11,
    SleepUntil = 12,
    EventSignal = 13,
    EventWait = 14,
    Post = 15,
    PostAhead = 16,
    Fetch = 17,
    MailboxReset = 18,
    MailboxResume = 19,
    Alloc = 20,
    Free = 21,
    Add = 22,
}

// The kind of a number; a number that is no kind's is refused with 2.
impl TryFrom<u16> for Kind {
    type Error = Refusal;

    ghost try_from_gives = { Decodes };

    fn try_from(n: u16) -> Result<Kind, Refusal> {
        match n {
            1 => Ok(Kind::Tick),
            2 => Ok(Kind::SemaphoreWait),
            3 => Ok(Kind::Signal),
            4 => Ok(Kind::SemaphoreReset),
            5 => Ok(Kind::BinarySignal),
            6 => Ok(Kind::QueueWait),
            7 => Ok(Kind::ReleaseFirst),
            8 => Ok(Kind::ReleaseAll),
            9 => Ok(Kind::Suspend),
            10 => Ok(Kind::Resume),
            11 => Ok(Kind::SleepFor),
            12 => Ok(Kind::SleepUntil),
            13 => Ok(Kind::EventSignal),
            14 => Ok(Kind::EventWait),
            15 => Ok(Kind::Post),
            16 => Ok(Kind::PostAhead),
            17 => Ok(Kind::Fetch),
            18 => Ok(Kind::MailboxReset),
            19 => Ok(Kind::MailboxResume),
            20 => Ok(Kind::Alloc),
            21 => Ok(Kind::Free),
            22 => Ok(Kind::Add),
            _ => Err(Refusal::Kind),
        }
    }
}

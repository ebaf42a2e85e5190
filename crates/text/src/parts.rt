// The parts of a listing, with the numbers of their order in docs/LISTING.md. A view shows parts from one number on, so they are numbers
// there, and a part where its rows are asked for.
ghost use Rattle.std.specs.Prelude.{◌≡◌, ◌<◌, MatchOption};
ghost use Rattle.text.specs.Parts.{part_number};

#[derive(Clone, Copy)]
pub(crate) enum Part {
    Step = 0,
    Answer = 1,
    Threads = 2,
    Semaphores = 3,
    Queues = 4,
    References = 5,
    Mailboxes = 6,
    Pools = 7,
    // the words: who is ready, and who waits at each object's places, of a mailbox at two
    ReadyWord = 8,
    SemaphoreWords = 9,
    QueueWords = 10,
    MailboxWords = 11,
    PoolWords = 12,
    Clock = 13,
    Steps = 14,
    Answered = 15,
    Wakings = 16,
    MailboxSums = 17,
    PoolSums = 18,
    ObjectSums = 19,
    // two that are a heading alone
    ListHead = 20,
    WhyHead = 21,
}

// The part of a number, if there is one.
pub(crate) fn part_of(n: u8) -> Option<Part>
    ensures { MatchOption result (21 < n) (λ part. part_number part ≡ n) }
{
    match n {
        0 => Some(Part::Step),
        1 => Some(Part::Answer),
        2 => Some(Part::Threads),
        3 => Some(Part::Semaphores),
        4 => Some(Part::Queues),
        5 => Some(Part::References),
        6 => Some(Part::Mailboxes),
        7 => Some(Part::Pools),
        8 => Some(Part::ReadyWord),
        9 => Some(Part::SemaphoreWords),
        10 => Some(Part::QueueWords),
        11 => Some(Part::MailboxWords),
        12 => Some(Part::PoolWords),
        13 => Some(Part::Clock),
        14 => Some(Part::Steps),
        15 => Some(Part::Answered),
        16 => Some(Part::Wakings),
        17 => Some(Part::MailboxSums),
        18 => Some(Part::PoolSums),
        19 => Some(Part::ObjectSums),
        20 => Some(Part::ListHead),
        21 => Some(Part::WhyHead),
        _ => None,
    }
}

// The places of the one table of counters: everything that threads queue on is a place.
// Semaphores 0 to 15, pools 16 to 19, plain queues 20 to 27, mailboxes' writers 28 to 31, their readers 32 to 35.
ghost use Rattle.std.specs.Prelude.{◌≡◌, ◌+◌, ◌%◌};
ghost use Rattle.kernel.specs.Places.{semaphore_place, pool_place, queue_place, writers_place, readers_place};

// The place of object i, of those whose places begin at FIRST. An object's number is a byte; the remainder keeps the sum within 16 bits
// whatever a damaged record holds.
fn place_from<const FIRST: u8>(i: u16) -> u16
    ensures { result ≡ FIRST + i % 256 }
{
    FIRST as u16 + i % 256
}

pub fn semaphore_place(i: u16) -> u16
    ensures { result ≡ semaphore_place i }
{
    i
}

pub fn pool_place(i: u16) -> u16
    ensures { result ≡ pool_place i }
{
    place_from::<16>(i)
}

pub fn queue_place(i: u16) -> u16
    ensures { result ≡ queue_place i }
{
    place_from::<20>(i)
}

pub fn writers_place(i: u16) -> u16
    ensures { result ≡ writers_place i }
{
    place_from::<28>(i)
}

pub fn readers_place(i: u16) -> u16
    ensures { result ≡ readers_place i }
{
    place_from::<32>(i)
}

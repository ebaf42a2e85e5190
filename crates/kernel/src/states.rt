// A thread's states, with the manual's numbers. A record has its state in 16 bits, and a host may hand over any number there.
#[derive(Clone, Copy)]
pub enum State {
    Ready = 0,
    Sleeping = 1,
    Suspended = 2,
    Queued = 3,
    Awaiting = 4,
}

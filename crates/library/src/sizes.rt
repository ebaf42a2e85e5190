// The configuration: how many threads and objects there are, and each mailbox's slots.
ghost use Rattle.std.specs.Prelude.{◌≡◌, ◌&&◌};
ghost use Rattle.library.specs.Sizes.{slots_at, slots_fit, sizes_fit, no_sizes};

#[repr(C)]
#[derive(Clone, Copy, Default)]
pub struct Sizes {
    pub threads: u16,
    pub semaphores: u16,
    pub queues: u16,
    pub references: u16,
    pub mailboxes: u16,
    pub pools: u16,
    pub slots: [u16; 4],
}

// The slots of mailbox i; 0 past the table.
pub fn slots_at(s: Sizes, i: u16) -> u16
    ensures { result ≡ slots_at s i }
{
    s.slots.get(i as usize).copied().unwrap_or(0)
}

// Whether mailbox i, if there is one, has 1 to 16 slots.
fn slots_fit(s: Sizes, i: u16) -> bool
    ensures { result ≡ slots_fit s i }
{
    let n = slots_at(s, i);
    s.mailboxes <= i || (1..=16).contains(&n)
}

// Whether each mailbox that there is has 1 to 16 slots.
fn every_slots_fit(s: Sizes) -> bool
    ensures { result ≡ (slots_fit s 0 && (slots_fit s 1 && (slots_fit s 2 && slots_fit s 3))) }
{
    (0..4).all(|i| slots_fit(s, i))
}

// Whether every size is within its limits.
#[tactic(auto, unfolding(crate::specs::Sizes::sizes_fit))]
pub fn sizes_fit(s: Sizes) -> bool
    ensures { result ≡ sizes_fit s }
{
    1 <= s.threads
        && s.threads <= 16
        && s.semaphores <= 16
        && s.queues <= 8
        && s.references <= 8
        && s.mailboxes <= 4
        && s.pools <= 4
        && every_slots_fit(s)
}

// No threads and no objects.
pub fn no_sizes() -> Sizes
    ensures { result ≡ no_sizes }
{
    Sizes::default()
}

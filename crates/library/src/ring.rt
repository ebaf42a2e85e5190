// A mailbox's or a pipe's positions: one small record, given back anew by each call on it, beside the slot that the call is about;
// or nothing, where there is no room, or no message. (The slots stand beside it: C lays them out in `Sizes`.)
ghost use Rattle.std.specs.Prelude.{◌≡◌, ltb};
ghost use Rattle.library.specs.Ring.{
  in_ring,
  follows,
  positions_fit,
  place_after,
  place_before,
  posted,
  posted_ahead,
  fetched,
  emptied,
  given_if,
};

use crate::numbers::NO_SLOT;

#[repr(C)]
#[derive(Clone, Copy, Default)]
pub struct Positions {
    pub read: u16,
    pub write: u16,
    pub count: u16,
}

#[derive(Clone, Copy)]
pub struct Placed {
    pub slot: u16,
    pub positions: Positions,
}

// Whether the count and both places are in range for a ring of `slots`.
fn in_ring(q: Positions, slots: u16) -> bool
    ensures { result ≡ in_ring q slots }
{
    q.count <= slots && (q.read < slots && q.write < slots)
}

// Whether the write place is the read place plus the count, in a ring of `slots`. The sum may leave 16 bits in damaged tables.
fn follows(q: Positions, slots: u16) -> bool
    ensures { result ≡ follows q slots }
{
    0 < slots && q.write as u32 == (q.read as u32 + q.count as u32) % slots as u32
}

// Whether the positions hang together: both of these.
#[tactic(auto, unfolding(crate::specs::Ring::positions_fit))]
pub fn positions_fit(q: Positions, slots: u16) -> bool
    ensures { result ≡ positions_fit q slots }
{
    in_ring(q, slots) && follows(q, slots)
}

// The place after p in a ring of `slots`.
fn place_after(p: u16, slots: u16) -> u16
    ensures { result ≡ place_after p slots }
{
    if p < slots && p + 1 < slots { p + 1 } else { 0 }
}

// The place before p in a ring of `slots`.
fn place_before(p: u16, slots: u16) -> u16
    ensures { result ≡ place_before p slots }
{
    if 0 < p {
        p - 1
    } else {
        slots.saturating_sub(1)
    }
}

impl Positions {
    // A message goes in at the write place.
    #[tactic(auto, unfolding(crate::specs::Ring::posted))]
    pub fn post(self, slots: u16) -> Option<Placed>
        ensures { result ≡ given_if (ltb self.count slots) (posted self slots) }
    {
        if self.count < slots {
            Some(Placed {
                slot: self.write,
                positions: Positions {
                    write: place_after(self.write, slots),
                    count: self.count + 1,
                    ..self
                },
            })
        } else {
            None
        }
    }

    // A message goes in before the read place.
    #[tactic(auto, unfolding(crate::specs::Ring::posted_ahead))]
    pub fn post_ahead(self, slots: u16) -> Option<Placed>
        ensures { result ≡ given_if (ltb self.count slots) (posted_ahead self slots) }
    {
        if self.count < slots {
            let read = place_before(self.read, slots);
            Some(Placed {
                slot: read,
                positions: Positions {
                    read,
                    count: self.count + 1,
                    ..self
                },
            })
        } else {
            None
        }
    }

    // A message comes out at the read place.
    #[tactic(auto, unfolding(crate::specs::Ring::fetched))]
    pub fn fetch(self, slots: u16) -> Option<Placed>
        ensures { result ≡ given_if (ltb 0 self.count) (fetched self slots) }
    {
        if 0 < self.count {
            Some(Placed {
                slot: self.read,
                positions: Positions {
                    read: place_after(self.read, slots),
                    count: self.count - 1,
                    ..self
                },
            })
        } else {
            None
        }
    }

    // All messages are dropped, and both places return to 0. It is about no slot: the form is that of the other three (docs/DECISIONS.md,
    // "Named forms").
    #[tactic(auto, unfolding(crate::specs::Ring::emptied))]
    pub fn reset(self) -> Placed
        ensures { result ≡ emptied self }
    {
        Placed {
            slot: NO_SLOT,
            positions: Positions::default(),
        }
    }
}

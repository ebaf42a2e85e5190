// A trace replayed: its steps made from fresh tables, up to its end or a bad record. A refused step leaves all as it was.
ghost use Rattle.std.specs.Prelude.{◌≡◌};
ghost use Rattle.trace.specs.Decoding.{told_read};
ghost use Rattle.replays.specs.Replaying.{told_replayed, fresh_kept, kept_after, read_on, going, replayed};

use compare::cells::Kept;
use library::calls::Step;
use library::fresh::{Fresh, make, none_made};
use library::sizes::{Sizes, no_sizes};
use steps::stepping::step;
use trace::cursor::read_at;
use trace::decoding::{BadRecord, Read, Record};

// A trace under way: the tables behind the last record that was read, the place behind it, and how reading ended, if it has: at the
// trace's end or at a bad record. Without record 0 the place is 0, and there are no tables.
#[derive(Clone, Copy)]
pub struct Replayed {
    pub kept: Kept,
    pub at: usize,
    pub end: Option<Result<(), BadRecord>>,
}

// A trace has no frequency: it is listed, and so replayed, at this one.
const LISTED_FREQUENCY: u32 = 1000;

// More reads than the longest trace has records.
const READS: u32 = 5000;

#[tactic(auto, unfolding(crate::specs::Replaying::fresh_kept))]
fn fresh_kept(sizes: Sizes) -> Kept
    ensures { result ≡ fresh_kept sizes }
{
    let made = make(sizes, Some(LISTED_FREQUENCY));
    let Fresh { tables, clock } = made.unwrap_or_else(|_| none_made());
    Kept { tables, clock }
}

#[tactic(auto, unfolding(crate::specs::Replaying::kept_after))]
fn step_kept(a: Kept, s: Step) -> Kept
    ensures { result ≡ kept_after a s }
{
    let y = step(a.tables, a.clock, s);
    Kept {
        tables: y.tables,
        clock: y.clock,
    }
}

// What is known behind a read.
#[tactic(auto, unfolding(crate::specs::Replaying::read_on))]
fn read_on(x: Replayed, r: Read) -> Replayed
    ensures { told_replayed result ≡ read_on (told_replayed x) (told_read r) }
{
    match r.found {
        Ok(Some(Record::Sizes(z))) => go_on(fresh_kept(z), r.next),
        Ok(Some(Record::Step(s))) => go_on(step_kept(x.kept, s), r.next),
        Ok(None) => Replayed {
            end: Some(Ok(())),
            ..x
        },
        Err(bad) => Replayed {
            end: Some(Err(bad)),
            ..x
        },
    }
}

fn go_on(kept: Kept, at: usize) -> Replayed
    ensures { told_replayed result ≡ going kept at }
{
    Replayed {
        kept,
        at,
        end: None,
    }
}

#[tactic(auto, unfolding(crate::specs::Replaying::replayed))]
pub fn replay(s: &[u8]) -> Replayed
    ensures { told_replayed result ≡ replayed s.now }
{
    let mut x = go_on(fresh_kept(no_sizes()), 0);
    for i in 0..READS {
        if x.end.is_some() {
            return x;
        }
        x = read_on(x, read_at(s, x.at));
    }
    x
}

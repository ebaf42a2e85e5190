// Bytes carried from one ring to another. Both are slices that go on at their start where they end, so that one function serves a write
// into a pipe's buffer and a read out of it. It copies in runs, up to the nearer end each.
ghost use Rattle.std.specs.Prelude.{◌≡◌, cond, leb, ltb, ◌+◌};
ghost use Rattle.pipes.specs.Carrying.{carried_between, run_carried};

// Whether n bytes from a place on end within so many.
fn run_fits(len: usize, at: usize, n: usize) -> bool
    ensures { result ≡ leb (at + n) len }
{
    // so that at + n does not pass the largest number
    at <= len && n <= len - at
}

// The place itself, or 0 where the ring ends.
fn wrap(p: usize, len: usize) -> usize
    ensures { result ≡ cond (ltb p len) p 0 }
{
    if p < len { p } else { 0 }
}

// One run, which passes neither end; nothing where it would.
fn copy_run(to: &mut [u8], at: usize, from: &[u8], start: usize, n: usize)
    ensures { to.new ≡ run_carried n from.now start to.old at }
{
    if run_fits(to.len(), at, n) && run_fits(from.len(), start, n) {
        to[at..at + n].copy_from_slice(&from[start..start + n]);
    }
}

// Carries n bytes, from a place of the one ring to a place of the other; nothing where there is no such place.
pub fn carry(to: &mut [u8], at: usize, from: &[u8], start: usize, n: usize)
    ensures { to.new ≡ carried_between n from.now start to.old at }
{
    if at < to.len() && start < from.len() {
        let mut p = at;
        let mut q = start;
        let mut done: usize = 0;
        // a turn goes on by a run, however long that is: no `for` counts so
        while done < n {
            let run = (n - done).min((to.len() - p).min(from.len() - q));
            copy_run(to, p, from, q, run);
            p = wrap(p + run, to.len());
            q = wrap(q + run, from.len());
            done += run;
        }
    }
}

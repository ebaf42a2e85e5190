// The first of some rows that fails a test, and whether none does: one search for the rows of all tables. Its caller hands it the test.
ghost use Rattle.std.specs.Prelude.{◌≡◌, ℕ, Bool, ◌<◌, ◌≤◌};
ghost use Rattle.kernel.specs.Walk.{all_from};
ghost use Rattle.rules.specs.Limits.{first_bad};
ghost use Rattle.rules.specs.Options.{told_row};

// The first of n rows that does not fit. The meanings tell no row by NOBODY, so there are at most as many rows as that.
#[inline(always)]
pub(crate) fn first_failing<F: Fn(u16) -> bool>(n: u16, fits: F) -> Option<u16>
    requires { (j : ℕ) → j < n → F.pre fits j }
    ensures { n ≤ 255 → (f : ℕ → Bool) → ((j : ℕ) → j < n → (b : Bool) → F.post fits j b → b ≡ f j) → result ≡ told_row (first_bad f n) }
{
    for i in 0..n {
        if !fits(i) {
            return Some(i);
        }
    }
    None
}

// Whether each of n rows fits.
pub(crate) fn all_fit<F: Fn(u16) -> bool>(n: u16, fits: F) -> bool
    requires { (j : ℕ) → j < n → F.pre fits j }
    ensures { n ≤ 255 → (f : ℕ → Bool) → ((j : ℕ) → j < n → (b : Bool) → F.post fits j b → b ≡ f j) → result ≡ all_from f 0 n }
{
    let failing = first_failing(n, fits);
    failing.is_none()
}

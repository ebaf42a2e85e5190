// A counter one more and one less, within 32 bits: at its end it stays.
ghost use Rattle.std.specs.Prelude.{◌≡◌};
ghost use Rattle.kernel.specs.Counters.{up, down};

pub fn count_up(c: i32) -> i32
    ensures { result ≡ up c }
{
    c.saturating_add(1)
}

pub fn count_down(c: i32) -> i32
    ensures { result ≡ down c }
{
    c.saturating_sub(1)
}

// Sizes and differences of signed counters and messages.
ghost use Rattle.std.specs.Prelude.{◌≡◌, pos, nat_abs, ◌-ℤ◌};
ghost use Rattle.library.specs.Signs.{minus};

// -n, for a number of threads.
pub fn negative(n: u16) -> i32
    ensures { result ≡ minus n }
{
    -i32::from(n)
}

// m - n, for two numbers of objects.
pub fn less(m: u16, n: u16) -> i32
    ensures { result ≡ pos m -ℤ pos n }
{
    i32::from(m) - i32::from(n)
}

// The size of a signed number, without its sign.
pub fn magnitude(m: i32) -> u32
    ensures { result ≡ nat_abs m }
{
    m.unsigned_abs()
}

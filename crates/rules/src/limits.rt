// How many rows of a table are in use. No size leads past a table's end, whatever a damaged configuration says.
ghost use Rattle.std.specs.Prelude.{◌≡◌};
ghost use Rattle.rules.specs.Limits.{used_of};

// n, or all the rows that there are.
pub fn used_of(rows: u16, n: u16) -> u16
    ensures { result ≡ used_of rows n }
{
    if n < rows { n } else { rows }
}

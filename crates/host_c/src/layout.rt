// The number of the layout. Each function hands on what it was lent to the one of its name in crate host.
ghost use Rattle.std.specs.Prelude.{◌≡◌};
ghost use Rattle.host.specs.Layout.{layout};

#[unsafe(no_mangle)]
pub extern "C" fn nil_layout() -> u32
    ensures { result ≡ layout }
{
    host::layout::nil_layout()
}

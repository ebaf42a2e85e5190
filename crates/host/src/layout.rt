// The number of the layout of what a host keeps and passes. It rises with every change of a struct of the boundary, so that a host
// compiled against another header is found out when it starts.
ghost use Rattle.std.specs.Prelude.{◌≡◌};
ghost use Rattle.host.specs.Layout.{layout};

pub const LAYOUT: u32 = compare::saving::LAYOUT;

#[unsafe(no_mangle)]
pub extern "C" fn nil_layout() -> u32
    ensures { result ≡ layout }
{
    LAYOUT
}

// The checksum Adler-32 of a slice (RFC 1950). It finds bytes that were changed by accident; it is no seal against whoever means to.
ghost use Rattle.std.specs.Prelude.{◌≡◌};
ghost use Rattle.compare.specs.Checksum.{added, checksum_of};

// The sum of the bytes, and the sum of what that one was after each; both below 65521.
#[derive(Clone, Copy)]
pub struct Sums {
    pub low: u16,
    pub high: u16,
}

const BASE: u32 = 65521;

fn add_byte(s: Sums, b: u8) -> Sums
    ensures { result ≡ added s b }
{
    let low = (s.low as u32 + b as u32) % BASE;
    let high = (s.high as u32 + low) % BASE;
    Sums {
        low: low as u16,
        high: high as u16,
    }
}

#[tactic(auto, unfolding(crate::specs::Checksum::checksum_of))]
pub fn checksum(bytes: &[u8]) -> u32
    ensures { result ≡ checksum_of bytes.now }
{
    let mut s = Sums { low: 1, high: 0 };
    for b in bytes {
        s = add_byte(s, *b);
    }
    s.high as u32 * 65536 + s.low as u32
}

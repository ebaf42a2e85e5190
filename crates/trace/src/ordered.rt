// Numbers as bytes, the highest first, at a place of a slice. Past the slice's end stand zeros, and nothing is written where not
// all of it fits: so every place has an answer, and callers that have tested the length lose nothing. The place is no cursor's: the layout
// gives it, and C keeps the one of a trace.
ghost use Rattle.std.specs.Prelude.{◌≡◌, ◌+◌, ◌<◌, ℕ, get_or};
ghost use Rattle.trace.specs.Ordered.{put_bytes, put_n, get_n};

// The byte at a place.
pub fn byte_at(s: &[u8], at: usize) -> u8
    ensures { result ≡ get_or s.now at 0 }
{
    s.get(at).copied().unwrap_or(0)
}

// The N bytes from a place on.
fn bytes_at<const N: usize>(s: &[u8], at: usize) -> [u8; N]
    ensures { (j : ℕ) → j < N → get_or result j 0 ≡ get_or s.now (at + j) 0 }
{
    let rest = s.get(at..).unwrap_or(&[]);
    let mut bytes = [0; N];
    for j in 0..N {
        bytes[j] = byte_at(rest, j);
    }
    bytes
}

#[tactic(auto, unfolding(crate::specs::Ordered::get_n))]
pub fn read_u16(s: &[u8], at: usize) -> u16
    ensures { result ≡ get_n 2 s.now at }
{
    u16::from_be_bytes(bytes_at(s, at))
}

#[tactic(auto, unfolding(crate::specs::Ordered::get_n))]
pub fn read_u32(s: &[u8], at: usize) -> u32
    ensures { result ≡ get_n 4 s.now at }
{
    u32::from_be_bytes(bytes_at(s, at))
}

// Some bytes, at a place where all of them fit.
fn put_bytes(buf: &mut [u8], at: usize, bytes: &[u8])
    ensures { buf.new ≡ put_bytes buf.old at bytes.now }
{
    let len = buf.len();
    // so that no place passes the largest number
    if at <= len && bytes.len() <= len - at {
        buf[at..at + bytes.len()].copy_from_slice(bytes);
    }
}

#[tactic(auto, unfolding(crate::specs::Ordered::put_n))]
pub fn write_u16(buf: &mut [u8], at: usize, x: u16)
    ensures { buf.new ≡ put_n 2 buf.old at x }
{
    put_bytes(buf, at, &x.to_be_bytes());
}

#[tactic(auto, unfolding(crate::specs::Ordered::put_n))]
pub fn write_u32(buf: &mut [u8], at: usize, x: u32)
    ensures { buf.new ≡ put_n 4 buf.old at x }
{
    put_bytes(buf, at, &x.to_be_bytes());
}

// Numbers as bytes, the lowest first, at a place of a slice. Past the slice's end stand zeros, and nothing is written where not all of
// a number fits: so every place has an answer. A place is 32 bits, so that what is added to it as an index never passes the largest number.
// It is no cursor's: the layout gives it.
ghost use Rattle.std.specs.Prelude.{◌≡◌, ◌≤◌};
ghost use Rattle.compare.specs.Bytes.{number_at, number_put};

use kernel::tables::at as byte_at;

// The number that w bytes make, from the highest down.
#[tactic(auto, unfolding(crate::specs::Bytes::number_at))]
pub(crate) fn get_number(s: &[u8], at: u32, w: u32) -> u32
    ensures { w ≤ 4 → result ≡ number_at w s.now at }
{
    let mut x: u32 = 0;
    for i in 0..w {
        let place = at as usize + (w - 1 - i) as usize;
        x = x
            .wrapping_mul(256)
            .wrapping_add(byte_at(s, place, 0) as u32);
    }
    x
}

// The lowest w bytes of a number.
#[tactic(auto, unfolding(crate::specs::Bytes::number_put))]
pub(crate) fn put_number(s: &mut [u8], at: u32, w: u32, x: u32)
    ensures { s.new ≡ number_put w s.old at x }
{
    let p = at as usize;
    if p + w as usize <= s.len() {
        let mut rest = x;
        for i in 0..w {
            s[p + i as usize] = (rest % 256) as u8;
            rest = rest / 256;
        }
    }
}

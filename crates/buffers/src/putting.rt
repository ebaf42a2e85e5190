// Bytes, words and numbers in decimal, put on a sheet one behind the other. What does not fit is not written, and the place stays at the
// buffer's end.
ghost use Rattle.std.specs.Prelude.{◌≡◌, ◌+◌, ◌%◌, [], ◌∷◌};
ghost use Rattle.buffers.specs.Put.{Puts};
ghost use Rattle.buffers.specs.Decimal.{decimal};

// A lent buffer, and the place in it where the next text goes.
#[derive(Drop)]
pub struct Sheet<'a> {
    pub out: &'a mut [u8],
    pub at: usize,
}

impl<'a> Sheet<'a> {
    pub fn put_byte(&mut self, b: u8)
        ensures { Puts self.old self.new (b ∷ []) }
    {
        if self.at < self.out.len() {
            self.out[self.at] = b;
            self.at += 1;
        }
    }

    pub fn put_word(&mut self, word: &[u8])
        ensures { Puts self.old self.new word.now }
    {
        for &b in word {
            self.put_byte(b);
        }
    }

    #[tactic(auto, unfolding(crate::specs::Decimal::decimal))]
    pub fn put_number(&mut self, n: u64)
        ensures { Puts self.old self.new (decimal n) }
    {
        if n < 10 {
            self.put_byte(digit(n));
        } else {
            self.put_number(n / 10);
            self.put_byte(digit(n));
        }
    }
}

// The last digit of a number.
fn digit(n: u64) -> u8
    ensures { result ≡ 48 + n % 10 }
{
    b'0' + (n % 10) as u8
}

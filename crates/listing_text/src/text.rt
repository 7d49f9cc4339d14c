// Words and numbers put into a buffer as text. The buffer is the caller's: a String takes a heap. `write!` into a slice may fail,
// and its contract does not tell the text.
ghost use Rattle.std.specs.Prelude.{◌≡◌, ◌<◌, [], ◌∷◌};
ghost use Rattle.listing_text.specs.Text.{digit_of, decimal, hex_in};
ghost use Rattle.listing_text.specs.Put.{HasRoom, Appends};

// The text so far is the buffer's bytes below `end`, and what is put next stands from there on.
#[derive(Drop)]
pub struct Text<'a> {
    pub out: &'a mut [u8],
    pub end: usize,
}

fn digit(d: u8) -> u8
    requires { d < 16 }
    ensures { result ≡ digit_of d }
{
    if d < 10 { b'0' + d } else { b'A' + (d - 10) }
}

impl Text<'_> {
    pub fn put_byte(&mut self, byte: u8)
        requires { HasRoom self.old (byte ∷ []) }
        ensures { Appends self.old self.new (byte ∷ []) }
    {
        self.out[self.end] = byte;
        self.end += 1;
    }

    pub fn put_words(&mut self, words: &[u8])
        requires { HasRoom self.old words.now }
        ensures { Appends self.old self.new words.now }
    {
        let end = self.end + words.len();
        self.out[self.end..end].copy_from_slice(words);
        self.end = end;
    }

    pub fn put_decimal(&mut self, n: u32)
        requires { HasRoom self.old (decimal n) }
        ensures { Appends self.old self.new (decimal n) }
    {
        if n < 10 {
            self.put_byte(digit(n as u8));
            return;
        }
        self.put_decimal(n / 10);
        self.put_byte(digit((n % 10) as u8));
    }

    // The last `digits` digits of n.
    pub fn put_hex(&mut self, digits: usize, n: u64)
        requires { HasRoom self.old (hex_in digits n) }
        ensures { Appends self.old self.new (hex_in digits n) }
    {
        if digits == 0 {
            return;
        }
        self.put_hex(digits - 1, n / 16);
        self.put_byte(digit((n % 16) as u8));
    }
}

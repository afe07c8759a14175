// Bytes at a place of a lent buffer: what any printer writes with.
#![tactic(auto)]

ghost use Rattle.std.specs.Prelude.{[], ◌∷◌, ◌≤◌, ◌<◌};
ghost use Rattle.io.specs.Digits.{hex_digit_ascii};
ghost use Rattle.writer.specs.Writer.{decimal, Adds};

// A lent buffer and the place of the next byte. A byte past the buffer's end is counted and not written.
#[derive(Drop)]
pub struct Writer<'a> {
    pub out: &'a mut [u8],
    pub at: usize,
}

impl<'a> Writer<'a> {
    // Two sums: one that saturates for every byte takes 3 % more instructions where large sets are printed.
    // Inlined, as are the numbers: with calls printing takes up to a third more instructions.
    #[inline(always)]
    pub fn put(&mut self, b: u8)
        ensures { Adds (b ∷ []) self.old self.new }
    {
        if self.at < self.out.len() {
            self.out[self.at] = b;
            self.at += 1;
        } else {
            self.at = self.at.saturating_add(1);
        }
    }

    pub fn put_all(&mut self, bytes: &[u8])
        ensures { Adds bytes.now self.old self.new }
    {
        for &b in bytes {
            self.put(b);
        }
    }

    #[inline(always)]
    fn put_digit(&mut self, d: usize)
        requires { d < 10 }
        ensures { Adds (hex_digit_ascii d ∷ []) self.old self.new }
    {
        self.put(b'0' + d as u8);
    }

    // A number of one or two digits.
    #[inline(always)]
    fn put_short(&mut self, n: usize)
        requires { n < 100 }
        ensures { Adds (decimal n) self.old self.new }
    {
        if n < 10 {
            self.put_digit(n);
        } else {
            self.put_digit(n / 10);
            self.put_digit(n % 10);
        }
    }

    // A number of three or four digits.
    #[inline(always)]
    fn put_middle(&mut self, n: usize)
        requires { (100 ≤ n) × (n < 10000) }
        ensures { Adds (decimal n) self.old self.new }
    {
        self.put_short(n / 100);
        self.put_digit(n / 10 % 10);
        self.put_digit(n % 10);
    }

    // Any number, by the kit.
    fn put_long(&mut self, n: usize)
        ensures { Adds (decimal n) self.old self.new }
    {
        let mut digits = [0u8; 20];
        let count = io::decimal(n as u64, &mut digits);
        self.put_all(&digits[..count]);
    }

    // A number in decimal.
    #[inline(always)]
    pub fn put_number(&mut self, n: usize)
        ensures { Adds (decimal n) self.old self.new }
    {
        if n < 100 {
            self.put_short(n);
        } else if n < 10000 {
            self.put_middle(n);
        } else {
            self.put_long(n);
        }
    }
}

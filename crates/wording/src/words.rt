// Words and numbers as text.
ghost use Rattle.std.specs.Prelude.{◌≡◌, ◌+◌, ◌<◌, ◌≤◌, length};
ghost use Rattle.wording.specs.paper.Text.{newline, digit, digits, places, decimal, hex16, numbered};
ghost use Rattle.wording.specs.Puts.{Room, Put};

// A place in a text that the caller lends. Each method puts its bytes from there on, and leaves the pen behind them.
#[derive(Drop)]
pub struct Pen<'a> {
    pub text: &'a mut [u8],
    pub at: usize,
}

impl Pen<'_> {
    pub fn word(&mut self, word: &[u8])
        requires { Room self.old word.now }
        ensures { Put self.old word.now self.new }
    {
        let end = self.at + word.len();
        self.text[self.at..end].copy_from_slice(word);
        self.at = end;
    }

    pub fn end_line(&mut self)
        requires { Room self.old newline }
        ensures { Put self.old newline self.new }
    {
        self.word(b"\n");
    }

    // The last `count` digits, from the last one back. By hand, since `Wrote` promises the text always: of a `write!`, std tells the bytes only where it
    // is `Ok`, and not where that is.
    fn digits(&mut self, n: u64, base: u64, count: usize)
        requires base_nonzero { (0 < base) × (base ≤ 16) }
        requires count_in_bounds { self.old.at + count ≤ length self.old.text.now }
        ensures { Put self.old (digits base count n) self.new }
    {
        let mut rest = n;
        for i in (0..count).rev() {
            self.text[self.at + i] = digit_byte(rest % base);
            rest /= base;
        }
        self.at += count;
    }

    pub fn decimal(&mut self, n: u64)
        requires { Room self.old (decimal n) }
        ensures { Put self.old (decimal n) self.new }
    {
        self.digits(n, 10, places_of(n));
    }

    pub fn hex16(&mut self, n: u64)
        requires { Room self.old (hex16 n) }
        ensures { Put self.old (hex16 n) self.new }
    {
        self.digits(n, 16, 16);
    }

    // A word with a number behind it: what every line is made of.
    pub fn named(&mut self, word: &[u8], n: u64)
        requires { Room self.old (numbered word.now n) }
        ensures { Put self.old (numbered word.now n) self.new }
    {
        self.word(word);
        self.decimal(n);
    }
}

fn digit_byte(d: u64) -> u8
    requires { d < 16 }
    ensures { result ≡ digit d }
{
    if d < 10 { 48 + d as u8 } else { 55 + d as u8 }
}

fn places_of(n: u64) -> usize
    ensures { result ≡ places n }
{
    let mut rest = n;
    let mut count = 1;
    // a digit is taken off while there are more than one
    while 10 <= rest {
        rest /= 10;
        count += 1;
    }
    count
}

// Bytes and numbers, printed into a lent buffer as far as the buffer reaches.
ghost use Rattle.std.specs.Prelude.{◌≡◌, [], ◌∷◌, ◌++◌, ◌<◌};
ghost use Rattle.report.specs.Text;
ghost use Rattle.report.specs.Text.{Prints, hex_digit, page, Page};

// The buffer, and the place to print at, also where that lies past the buffer's end.
// No `impl fmt::Write`: `write!` says what was written at `Ok` alone, and nowhere that it answers `Ok`.
#[derive(Drop)]
pub(crate) struct Printer<'a> {
    out: &'a mut [u8],
    pub(crate) place: usize,
}

impl<'a> Printer<'a> {
    pub(crate) fn new(out: &'a mut [u8]) -> Printer<'a>
        ensures same { result.out.ghost_name ≡ out.entry.ghost_name }
        ensures start { page result ≡ record { bytes = out.old; place = 0 } }
    {
        Printer { out, place: 0 }
    }

    // One byte.
    pub(crate) fn put(&mut self, b: u8)
        ensures { Prints self.old (b ∷ []) self.new }
    {
        if self.place < self.out.len() {
            self.out[self.place] = b;
        }
        self.place = self.place.saturating_add(1);
    }

    // All bytes of a text.
    pub(crate) fn put_all(&mut self, text: &[u8])
        ensures { Prints self.old text.now self.new }
    {
        for b in text {
            self.put(*b);
        }
    }

    // A number in decimal, without leading zeros.
    #[tactic(auto, using(crate::proofs::Decimals::std_decimal))]
    pub(crate) fn decimal(&mut self, x: u32)
        ensures { Prints self.old (Text.decimal x) self.new }
    {
        let mut digits = itoa::Buffer::new();
        self.put_all(digits.format(x).as_bytes());
    }

    // A word in four hex digits, one by one: std prints them through `write!` alone.
    fn hex(&mut self, w: u16)
        ensures { Prints self.old (Text.hex w) self.new }
    {
        self.put(hex_digit(w / 4096 % 16));
        self.put(hex_digit(w / 256 % 16));
        self.put(hex_digit(w / 16 % 16));
        self.put(hex_digit(w % 16));
    }

    // A name and a word after it, as a number.
    pub(crate) fn number(&mut self, name: &[u8], x: u16)
        ensures { Prints self.old (name.now ++ Text.decimal x) self.new }
    {
        self.put_all(name);
        self.decimal(u32::from(x));
    }

    // A name and a word after it, as a set.
    pub(crate) fn set(&mut self, name: &[u8], w: u16)
        ensures { Prints self.old (name.now ++ Text.hex w) self.new }
    {
        self.put_all(name);
        self.hex(w);
    }
}

fn hex_digit(x: u16) -> u8
    requires { x < 16 }
    ensures { result ≡ hex_digit x }
{
    if x < 10 {
        b'0' + x as u8
    } else {
        b'A' + (x - 10) as u8
    }
}

// A line that is put into a lent buffer.
ghost use Rattle.std.specs.Prelude.{◌≡◌, ℕ, Bool, ◌<◌, ◌∷◌, []};
ghost use Rattle.ground.specs.Fold.{some};
ghost use Rattle.lines.specs.inside.Puts.{Puts};
ghost use Rattle.lines.specs.Text.{decimal, numbers_text};

// A lent buffer, and the place behind what is put there. Nothing is put past the end.
// It is no writer for `write!`, which may answer an error and then says nothing of the bytes.
#[derive(Drop)]
pub(crate) struct Line<'a> {
    out: &'a mut [u8],
    at: usize,
}

impl<'a> Line<'a> {
    // A line at the beginning of a buffer.
    pub(crate) fn new(out: &'a mut [u8]) -> Line<'a>
        ensures same_buffer { result.out.ghost_name ≡ out.entry.ghost_name }
        ensures same_bytes { result.out.now ≡ out.old }
        ensures at_start { result.at ≡ 0 }
    {
        Line { out, at: 0 }
    }

    // How many bytes it has.
    pub(crate) fn len(&self) -> usize
        ensures { result ≡ self.now.at }
    {
        self.at
    }

    // A byte.
    fn put(&mut self, byte: u8)
        ensures { Puts self.old self.new (byte ∷ []) }
    {
        if self.at < self.out.len() {
            self.out[self.at] = byte;
            self.at += 1;
        }
    }

    // Some bytes.
    pub(crate) fn put_text(&mut self, text: &[u8])
        ensures { Puts self.old self.new text.now }
    {
        for &byte in text {
            self.put(byte);
        }
    }

    // A number: its digits.
    pub(crate) fn put_number(&mut self, n: usize)
        ensures { Puts self.old self.new (decimal n) }
    {
        if n >= 10 {
            self.put_number(n / 10);
        }
        self.put(b'0' + (n % 10) as u8);
    }

    // The numbers below an end that pass a test, rising, with a comma between them; answers whether there is one. The
    // flag stays: by it a comma is due, and it is the answer.
    pub(crate) fn put_numbers<F: Fn(usize) -> bool>(&mut self, end: usize, test: F) -> bool
        requires { (k : ℕ) → k < end → F.pre test k }
        ensures { (is_put : ℕ → Bool) → ((k : ℕ) (b : Bool) → k < end → F.post test k b → b ≡ is_put k)
            → Puts self.old self.new (numbers_text is_put end) × (result ≡ some end is_put) }
    {
        let mut any = false;
        for k in 0..end {
            if test(k) {
                if any {
                    self.put(b',');
                }
                self.put_number(k);
                any = true;
            }
        }
        any
    }
}

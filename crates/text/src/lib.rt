// Text in byte slices: bytes and decimal numbers one after another, and what is counted for it.
#![tactic(auto)]

ghost use Rattle.std.specs.Prelude.{◌≡◌, [], ◌∷◌};
ghost use Rattle.model.specs.Exports.{decimal, count};
ghost use Rattle.text.specs.Emit.{literal};
ghost use Rattle.text.specs.Written.{Written};

// The variables below n in a mask.
pub fn count(mask: u64, n: u16) -> u16
    ensures { result ≡ count mask n }
{
    let mut left = mask;
    let mut found = 0;
    for v in 0..n {
        found += (left % 2) as u16;
        left = left / 2;
    }
    found
}

// A slice and the byte up to which it is written.
#[derive(Drop)]
pub struct Page<'a> {
    pub text: &'a mut [u8],
    pub end: usize,
}

impl<'a> Page<'a> {
    // A page of a slice, with nothing written.
    pub fn new(text: &'a mut [u8]) -> Page<'a>
        ensures same { result.text.ghost_name ≡ text.entry.ghost_name }
        ensures text { result.text.now ≡ text.old }
        ensures start { result.end ≡ 0 }
    {
        Page { text, end: 0 }
    }

    // One byte more, if there is room.
    pub fn emit_byte(&mut self, b: u8)
        ensures { Written (b ∷ []) self.old self.new }
    {
        if self.end < self.text.len() {
            self.text[self.end] = b;
            self.end += 1;
        }
    }

    // Bytes one after another, as many as there is room for.
    pub fn emit(&mut self, bytes: &[u8])
        ensures { Written bytes.now self.old self.new }
    {
        for b in bytes {
            self.emit_byte(*b);
        }
    }

    // A number's decimal digits, the last digit after those of its tenth. By hand: no heap, and its promise is these digits.
    pub fn emit_number(&mut self, n: u16)
        ensures { Written (decimal n []) self.old self.new }
    {
        if n >= 10 {
            self.emit_number(n / 10);
        }
        self.emit_byte(48 + (n % 10) as u8);
    }

    // A number of two's complement.
    pub fn emit_literal(&mut self, n: u16)
        ensures { Written (literal n) self.old self.new }
    {
        if n < 0x8000 {
            self.emit_number(n);
        } else {
            self.emit_byte(b'-');
            self.emit_number(0xFFFF - n + 1);
        }
    }
}

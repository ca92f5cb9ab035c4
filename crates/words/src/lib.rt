// Little-endian numbers in byte slices.
#![tactic(auto)]

ghost use Rattle.std.specs.Prelude.{◌≡◌, ℕ, ◌+◌, ◌*◌, ◌^◌, ◌≤◌, map, length, take};
ghost use Rattle.model.specs.Bytes.{half_at, bytes_of, unsigned, word_at, signed_words, written};

// The 16-bit number at a byte.
pub fn half(s: &[u8], at: usize) -> u16
    requires { at + 2 ≤ length s.now }
    ensures { result ≡ half_at s.now at }
{
    u16::from_le_bytes([s[at], s[at + 1]])
}

// Signed word number i.
pub fn word(s: &[u8], i: usize) -> i32
    requires { 4 * i + 4 ≤ length s.now }
    ensures { result ≡ word_at s.now i }
{
    let at = 4 * i;
    i32::from_le_bytes([s[at], s[at + 1], s[at + 2], s[at + 3]])
}

// Reads as many signed words as there is room for.
pub fn get_words(words: &mut [i32], s: &[u8])
    requires { 4 * length words.old ≤ length s.now }
    ensures { words.new ≡ take (length words.old) (signed_words s.now) }
{
    for (i, slot) in words.iter_mut().enumerate() {
        *slot = word(s, i);
    }
}

// A number that is written as bytes, the lowest first.
pub trait LittleEndian: Copy {
    ghost SIZE: { ℕ };

    ghost number: { Self → ℕ };

    const SIZE: usize;

    fn put(self, to: &mut [u8])
        requires { length to.old ≡ SIZE }
        ensures { to.new ≡ bytes_of SIZE (number self) };
}

impl LittleEndian for u64 {
    ghost SIZE = { 8 };

    ghost number = { λ n. n };

    const SIZE: usize = 8;

    fn put(self, to: &mut [u8]) {
        to.copy_from_slice(&self.to_le_bytes())
    }
}

impl LittleEndian for i32 {
    ghost SIZE = { 4 };

    ghost number = { unsigned (2 ^ 31) };

    const SIZE: usize = 4;

    fn put(self, to: &mut [u8]) {
        to.copy_from_slice(&self.to_le_bytes())
    }
}

// Writes numbers from byte 0 on; the bytes after them stay.
pub fn put_words<W: LittleEndian>(s: &mut [u8], words: &[W])
    requires { W.SIZE * length words.now ≤ length s.old }
    ensures { s.new ≡ written W.SIZE (map W.number words.now) s.old }
{
    for (i, word) in words.iter().enumerate() {
        let at = W::SIZE * i;
        word.put(&mut s[at..at + W::SIZE]);
    }
}

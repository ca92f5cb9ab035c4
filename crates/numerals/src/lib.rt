// Numbers of 32 bits in text, as programs are given them.
#![tactic(auto)]

ghost use Rattle.std.specs.Prelude.{◌≡◌, true};
ghost use Rattle.numerals.specs.Numerals.{is_digit, further, saying, fits, word_in};

// A number, the two dashes that end a list of numbers, or neither.
#[derive(Clone, Copy)]
pub enum Word {
    Number(i32),
    Dashes,
    Neither,
}

// 2^31 is the size of the least number; whatever is above it counts as one more.
const OVER: u32 = 2147483649;

// One digit more.
fn append(n: u32, b: u8) -> u32
    requires { is_digit b ≡ true }
    ensures { result ≡ further n b }
{
    if 214748364 < n {
        return OVER;
    }
    n * 10 + u32::from(b - b'0')
}

// What digits say, or none where they aren't digits alone.
fn digits(text: &[u8]) -> Option<u32>
    ensures { result ≡ saying 0 text.now }
{
    let mut n: u32 = 0;
    for b in text {
        if !b.is_ascii_digit() {
            return None;
        }
        n = append(n, *b);
    }
    Some(n)
}

// A number of 32 bits by its size and its sign.
fn number(said: Option<u32>, minus: bool) -> Word
    ensures { result ≡ fits minus said }
{
    let Some(n) = said else {
        return Word::Neither;
    };
    let z = if minus { -i64::from(n) } else { i64::from(n) };
    match i32::try_from(z) {
        Ok(z) => Word::Number(z),
        Err(_) => Word::Neither,
    }
}

// What a word of text is.
pub fn read(text: &[u8]) -> Word
    ensures { result ≡ word_in text.now }
{
    let Some((first, rest)) = text.split_first() else {
        return Word::Neither;
    };
    if *first != b'-' {
        return number(digits(text), false);
    }
    if rest.is_empty() {
        return Word::Neither;
    }
    if rest == b"-".as_slice() {
        return Word::Dashes;
    }
    number(digits(rest), true)
}

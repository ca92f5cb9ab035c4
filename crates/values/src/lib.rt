// Values and their operations, over half the number of int's values.
#![tactic(auto)]

ghost use Rattle.std.specs.Prelude.{◌≡◌, ◌+◌, ◌^◌, ◌≤◌, ◌<◌};
ghost use Rattle.std.specs.Int.Signed.{mag};
ghost use Rattle.model.specs.Bytes.{signed};
ghost use Rattle.model.specs.Values.{side, round, wrap, negate, plus, minus, times, quotient, remainder, of_bool, of_size};
ghost use Rattle.values.specs.Range.{Half, InRange, BothInRange};

// n for n and for -(n + 1).
pub fn size(z: i32) -> u32
    ensures { result ≡ mag z }
{
    if z < 0 { (-1 - z) as u32 } else { z as u32 }
}

// m, or -(m + 1).
fn side(s: bool, m: u32) -> i32
    requires { m < 2 ^ 31 }
    ensures { result ≡ side s m }
{
    if s { m as i32 } else { -1 - (m as i32) }
}

// m stays below h, and comes round from the other end from there on.
pub fn round(h: u32, s: bool, m: u32) -> i32
    requires { (h ≤ 2 ^ 31) × (m < h + h) }
    ensures { result ≡ round h s m }
{
    if m < h {
        side(s, m)
    } else {
        side(!s, h - 1 - (m - h))
    }
}

// Moved up by h and a multiple of n, a remainder is where it wraps to: no branch, which the machine would guess.
pub fn wrap(half: u16, z: i32) -> i32
    requires { Half half }
    ensures { result ≡ wrap half z }
{
    let h = half as i32;
    let n = h + h;
    (z % n + n + h) % n - h
}

pub fn negate(half: u16, a: i32) -> i32
    requires { InRange half a }
    ensures { result ≡ negate half a }
{
    wrap(half, -a)
}

pub fn plus(half: u16, a: i32, b: i32) -> i32
    requires { BothInRange half a b }
    ensures { result ≡ plus half a b }
{
    wrap(half, a + b)
}

pub fn minus(half: u16, a: i32, b: i32) -> i32
    requires { BothInRange half a b }
    ensures { result ≡ minus half a b }
{
    wrap(half, a - b)
}

pub fn times(half: u16, a: i32, b: i32) -> i32
    requires { BothInRange half a b }
    ensures { result ≡ times half a b }
{
    wrap(half, a * b)
}

pub fn quotient(half: u16, a: i32, b: i32) -> i32
    requires { BothInRange half a b }
    ensures { result ≡ quotient half a b }
{
    if b == 0 {
        return 0;
    }
    wrap(half, a / b)
}

// An int's remainder is one: it needs no wrapping.
pub fn remainder(half: u16, a: i32, b: i32) -> i32
    requires { BothInRange half a b }
    ensures { result ≡ remainder a b }
{
    if b == 0 {
        return a;
    }
    a % b
}

// Whether z is a value of a type with n values; int's n is 0.
pub fn of_size(half: u16, n: u16, z: i32) -> bool
    ensures { result ≡ of_size half n z }
{
    let m = size(z);
    if n == 0 {
        return m < half as u32;
    }
    0 <= z && m < n as u32
}

pub fn of_bool(b: bool) -> i32
    ensures { result ≡ of_bool b }
{
    i32::from(b)
}

// Two's complement.
pub fn signed(half: u16, n: u16) -> i32
    requires { Half half × (n < half + half) }
    ensures { result ≡ signed half n }
{
    wrap(half, n as i32)
}

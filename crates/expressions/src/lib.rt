// Expressions, evaluated on a store: by recursion on rows, an undefined read an answer of its own.
#![tactic(auto)]

ghost use Rattle.std.specs.Prelude.{◌≡◌, ◌<◌, length, get_or};
ghost use Rattle.std.specs.Int.Signed.{mag};
ghost use Rattle.model.specs.Image.{tables_of, fields_of};
ghost use Rattle.model.specs.Values.{half16, mark};
ghost use Rattle.model.specs.Rows.{expression};
ghost use Rattle.model.specs.Decode.{expression_at};
ghost use Rattle.model.specs.Run.{apply_unary, apply_binary, eval, test};
ghost use Rattle.expressions.specs.Operators.{unary_of, binary_of, value_of, constant_by};
ghost use Rattle.expressions.specs.Ready.{RowFrom, Runs, Applies};

use model::{Fields, Image, Tested};
use values::{minus, negate, of_bool, plus, quotient, remainder, signed, times};
use words::half;

// The fields of a row, by where the rows start.
pub fn row(image: &[u8], rows: u16, r: u16) -> Fields
    requires { RowFrom image.now rows r }
    ensures { result ≡ fields_of (tables_of image.now) r }
{
    let at = rows as usize + r as usize * 8;
    Fields {
        code: half(image, at),
        a: half(image, at + 2),
        b: half(image, at + 4),
        c: half(image, at + 6),
    }
}

// A number that may be the mark, as a value.
pub fn known(z: i32) -> Option<i32>
    ensures { result ≡ value_of z }
{
    if z == Image::UNDEFINED {
        return None;
    }
    Some(z)
}

// A variable's value.
pub fn value(store: &[i32], v: u16) -> Option<i32>
    requires { v < length store.now }
    ensures { result ≡ value_of (get_or store.now v (mark half16)) }
{
    known(store[v as usize])
}

// The value of a constant of type a.
pub fn constant(a: u16, b: u16) -> i32
    ensures { result ≡ constant_by a b }
{
    if a == Image::INT {
        return signed(Image::HALF, b);
    }
    b as i32
}

fn unary(code: u16, a: i32) -> i32
    requires { mag a < 32768 }
    ensures { result ≡ apply_unary half16 (unary_of code) a }
{
    if code == 16 {
        return of_bool(a == 0);
    }
    negate(Image::HALF, a)
}

fn binary(code: u16, a: i32, b: i32) -> i32
    requires { (mag a < 32768) × (mag b < 32768) }
    ensures { result ≡ apply_binary half16 (binary_of code) a b }
{
    match code {
        17 => of_bool((a != 0) & (b != 0)),
        18 => of_bool((a != 0) | (b != 0)),
        20 => plus(Image::HALF, a, b),
        21 => minus(Image::HALF, a, b),
        22 => times(Image::HALF, a, b),
        23 => quotient(Image::HALF, a, b),
        24 => remainder(Image::HALF, a, b),
        25 => of_bool(a == b),
        26 => of_bool(a < b),
        _ => of_bool(a <= b),
    }
}

// An operator's value, or the mark where an operand is unknown; and, or evaluate both operands.
#[cycle(applied_apply_operand)]
fn applied(image: &[u8], rows: u16, r: u16, store: &[i32]) -> i32
    requires { Applies image.now rows r store.now }
    ensures { value_of result ≡ eval (tables_of image.now) (expression_at (tables_of image.now) r) store.now }
{
    let w = row(image, rows, r);
    let a = operand(image, rows, w.a, store);
    if a == Image::UNDEFINED {
        return Image::UNDEFINED;
    }
    let code = w.code;
    match code {
        16 | 19 => unary(code, a),
        _ => {
            let b = operand(image, rows, w.b, store);
            if b == Image::UNDEFINED {
                return Image::UNDEFINED;
            }
            binary(code, a, b)
        }
    }
}

// The same, on slices made anew: handed on as they came they'd be copied in one piece, and each call would wait until
// the two halves that its caller wrote are in memory.
#[cycle(applied_apply_operand)]
fn apply(image: &[u8], rows: u16, r: u16, store: &[i32]) -> i32
    requires { Applies image.now rows r store.now }
    ensures { value_of result ≡ eval (tables_of image.now) (expression_at (tables_of image.now) r) store.now }
{
    applied(&image[0..], rows, r, &store[0..])
}

// An operand's value, or the mark: a variable or a constant is read here, so that only operators are calls.
#[cycle(applied_apply_operand)]
fn operand(image: &[u8], rows: u16, r: u16, store: &[i32]) -> i32
    requires { Runs expression image.now rows r store.now }
    ensures { value_of result ≡ eval (tables_of image.now) (expression_at (tables_of image.now) r) store.now }
{
    let w = row(image, rows, r);
    let code = w.code;
    match code {
        1 => store[w.a as usize],
        2 => constant(w.a, w.b),
        _ => apply(image, rows, r, store),
    }
}

// The value of an expression.
pub fn eval(image: &[u8], rows: u16, r: u16, store: &[i32]) -> Option<i32>
    requires { Runs expression image.now rows r store.now }
    ensures { result ≡ eval (tables_of image.now) (expression_at (tables_of image.now) r) store.now }
{
    let w = row(image, rows, r);
    let code = w.code;
    match code {
        1 => value(store, w.a),
        2 => Some(constant(w.a, w.b)),
        _ => known(apply(image, rows, r, store)),
    }
}

// A condition's value.
pub fn test(image: &[u8], rows: u16, r: u16, store: &[i32]) -> Tested
    requires { Runs expression image.now rows r store.now }
    ensures { result ≡ test (tables_of image.now) (expression_at (tables_of image.now) r) store.now }
{
    match eval(image, rows, r, store) {
        Some(a) => { if a == 0 { Tested::Fails } else { Tested::Holds } }
        None => Tested::Unsure,
    }
}

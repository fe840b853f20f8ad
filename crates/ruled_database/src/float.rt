//! Floats as texts, as SQLite writes them. The kit's `of_float` counts the digits anew for each digit that it looks at.

ghost use Rattle.std.specs.Prelude.{◌≡◌, ◌+◌, ◌*◌, ◌^◌, ◌<◌, ◌≤◌, [], ◌∷◌, ◌++◌, nat_le, nat_lt, replicate, if◌then◌else◌, IfOk, IfSome, OnOk};
ghost use Rattle.std.specs.Fmt.{decimal};
ghost use Rattle.sqlite_sql.specs.Spelling as spec;

use itoa::Buffer;
use sqlite_sql::spelling::of_float;
use std::alloc::{AllocError, Global};
use std::num::f64_to_bits_with_nan;

const SIGN: u64 = 1 << 63;

const NORMAL: u64 = 1 << 52;

const INFINITY: u64 = 2047 << 52;

// How a normal float is scaled.
fn scale(bits: u64) -> u64
    requires { 2 ^ 52 ≤ bits }
    ensures value { result ≡ spec.scale bits }
    ensures most { result ≤ 5000 }
{
    bits / NORMAL + 51
}

// The row of the table of powers.
fn row(bits: u64) -> u64
    requires { 2 ^ 52 ≤ bits }
    ensures value { result ≡ spec.row bits }
    ensures most { result ≤ 667 }
{
    683u64
        .saturating_sub((scale(bits) * 78913 + 182094) / (1 << 18))
        .min(667)
}

// The leading bits of a power of ten.
fn power(row: u64) -> u64
    requires { row ≤ 667 }
    ensures { result ≡ spec.power row }
{
    (fast_float::power_of_ten(row) / (1 << 64)) as u64
}

// The first digits of a normal float, as a number.
#[tactic(auto, unfolding(sqlite_sql::specs::Spelling::digits))]
fn first_digits(bits: u64) -> u64
    requires { 2 ^ 52 ≤ bits }
    ensures value { result ≡ spec.digits bits }
    ensures most { result ≤ 2 ^ 63 }
{
    let row = row(bits);
    let shift = 2272u64
        .saturating_sub(scale(bits))
        .saturating_sub((row * 108853 + 29490) / (1 << 15));
    let significand = bits % NORMAL * 2048 + SIGN;
    let product = u128::from(significand) * u128::from(power(row)) / (1 << 64);
    let high = if shift < 64 { product >> shift } else { 0 };
    ((high + high % 2 * 2) / 2) as u64
}

// How many digits a number has.
fn count(number: u64) -> usize
    ensures value { result ≡ spec.count number }
    ensures most { result ≤ 20 }
{
    let mut left = number;
    let mut count = 1;
    'digits: while left >= 10 {
        left /= 10;
        count += 1;
    }
    count
}

fn ten_to(k: usize) -> u64
    requires { k ≤ 19 }
    ensures value { result ≡ 10 ^ k }
    ensures some { 0 < result }
{
    let mut power = 1;
    for _turn in 0..k {
        power *= 10;
    }
    power
}

/// The first digits of a float, and how many there are.
#[derive(Clone, Copy)]
struct Digits {
    number: u64,
    count: usize,
    ghost counted: { count ≡ spec.count number },
    ghost enough: { 18 ≤ count },
    ghost most: { count ≤ 19 },
    ghost small: { number ≤ 2 ^ 63 },
}

/// Where a run of one digit begins, and the digits in front of it.
#[derive(Clone, Copy)]
struct Run {
    start: usize,
    front: u64,
}

impl Digits {
    // The digits of a normal float, unless there are too few.
    fn of(bits: u64) -> Option<Digits>
        requires { 2 ^ 52 ≤ bits }
        ensures { IfSome result (λ it. it.number ≡ spec.digits bits) }
    {
        let number = first_digits(bits);
        let count = count(number);
        if count < 18 || 19 < count {
            return None;
        }
        Some(Digits { number, count })
    }

    // The first so many digits.
    fn front(self, k: usize) -> u64
        requires { k ≤ self.count }
        ensures value { result ≡ spec.front self.number k }
        ensures most { result ≤ self.number }
    {
        self.number / ten_to(self.count - k)
    }

    // The digit at a place.
    fn digit(self, at: usize) -> u64
        requires { at < self.count }
        ensures { result ≡ spec.digit self.number at }
    {
        self.front(at + 1) % 10
    }

    #[tactic(auto, using(crate::proofs::Tabling::front_less, crate::proofs::Tabling::run_more, crate::proofs::Tabling::run_ends))]
    // The run of this digit that ends in front of a place.
    fn run_from(self, of: u64, before: usize) -> Run
        requires { before ≤ 14 }
        ensures start { result.start ≡ spec.run_from self.number of before }
        ensures front { result.front ≡ spec.front self.number result.start }
        ensures most { result.start ≤ 14 }
        ensures small { result.front ≤ self.number }
    {
        let mut start = before;
        let mut front = self.front(before);
        'run: while start > 0 {
            if front % 10 != of {
                return Run { start, front };
            }
            start -= 1;
            front /= 10;
        }
        Run { start, front }
    }

    // Whether so many digits read back as the float.
    fn reads_back(self, bits: u64, short: u64, k: usize) -> bool
        requires normal { 2 ^ 52 ≤ bits }
        requires number { bits < 2047 * 2 ^ 52 }
        requires few { k ≤ 14 }
        requires digits { self.number ≡ spec.digits bits }
        ensures { result ≡ spec.reads_back bits short k }
    {
        let exponent = (342 + self.count) as i64 - (row(bits) + k as u64) as i64;
        f64::from_bits(bits) == fast_float::from_parts::<f64>(false, short, exponent)
    }

    // How many digits are kept.
    #[tactic(auto, unfolding(sqlite_sql::specs::Spelling::kept))]
    fn kept(self, bits: u64) -> usize
        requires normal { 2 ^ 52 ≤ bits }
        requires number { bits < 2047 * 2 ^ 52 }
        requires digits { self.number ≡ spec.digits bits }
        ensures value { result ≡ spec.kept bits }
        ensures most { result ≤ 17 }
    {
        if (self.digit(15) == 9) & (self.digit(14) == 9) {
            let nines = self.run_from(9, 14);
            return if self.reads_back(bits, nines.front + 1, nines.start) {
                nines.start + 1
            } else {
                17
            };
        }
        let zeros = self.run_from(0, 13);
        let ends = (row(bits) <= 342)
            | ((self.digit(15) == 0) & (self.digit(14) == 0) & (self.digit(13) == 0));
        if ends && self.reads_back(bits, zeros.front, zeros.start) {
            zeros.start + 1
        } else {
            17
        }
    }

    // So many digits, rounded.
    fn rounded(self, kept: usize) -> u64
        requires { kept ≤ 17 }
        ensures { result ≡ spec.front self.number kept + (if nat_le 5 (spec.digit self.number kept) then 1 else 0) }
    {
        let carry = if self.digit(kept) >= 5 { 1 } else { 0 };
        self.front(kept) + carry
    }
}

// A number without the zeros at its end.
fn without_zeros(number: u64) -> u64
    ensures { result ≡ spec.without_zeros 20 number }
{
    let mut left = number;
    for _turn in 0..20usize {
        if !((left % 10 == 0) & (left > 0)) {
            return left;
        }
        left /= 10;
    }
    left
}

/// The digits of a float that is written without an exponent, and 400 more than how many stand in front of its point.
#[derive(Clone, Copy)]
struct Plain {
    digits: u64,
    point: usize,
}

#[tactic(auto, using(crate::proofs::Tabling::sized))]
// A positive float that is written without an exponent. None where the digits are too few.
fn plain_of(bits: u64) -> Option<Plain>
    ensures { IfSome result (λ it. (spec.size bits ≡ spec.with_point (decimal it.digits) it.point) × (0 < bits) × (397 ≤ it.point) × (it.point ≤ 417)) }
{
    if bits < NORMAL || INFINITY <= bits {
        return None;
    }
    let digits = Digits::of(bits)?;
    let kept = digits.kept(bits);
    let number = digits.rounded(kept);
    let point = count(number) + (digits.count - kept) + 742 - row(bits) as usize;
    if point < 397 || 417 < point {
        return None;
    }
    Some(Plain {
        digits: without_zeros(number),
        point,
    })
}

fn push_zeros(text: &mut Vec<u8>, count: usize) -> Result<(), AllocError>
    ensures { OnOk result (text.new.items ≡ text.old.items ++ replicate count 48) }
{
    for _turn in 0..count {
        text.push(b'0')?;
    }
    Ok(())
}

fn or_zero(digits: &[u8]) -> &[u8]
    ensures { result.now ≡ spec.or_zero digits.now }
{
    if digits.is_empty() { b"0" } else { digits }
}

#[tactic(auto, unfolding(sqlite_sql::specs::Spelling::with_point))]
// Appends digits, with a point.
fn push_with_point(text: &mut Vec<u8>, digits: &[u8], point: usize) -> Result<(), AllocError>
    requires { (397 ≤ point) × (point ≤ 417) }
    ensures { OnOk result (text.new.items ≡ text.old.items ++ spec.with_point digits.now point) }
{
    if point <= 400 {
        text.extend_from_slice(b"0.")?;
        push_zeros(text, 400 - point)?;
        return text.extend_from_slice(digits);
    }
    let (whole, rest) = digits.split_at(digits.len().min(point - 400));
    text.extend_from_slice(whole)?;
    push_zeros(text, (point - 400).saturating_sub(digits.len()))?;
    text.extend_from_slice(b".")?;
    text.extend_from_slice(or_zero(rest))
}

// The sign of a float, in a text with room for what follows.
fn sign_of(alloc: Global, bits: u64) -> Result<Vec<u8>, AllocError>
    ensures { IfOk result (λ text. text.items ≡ (if nat_lt bits (2 ^ 63) then [] else 45 ∷ [])) }
{
    let mut text = Vec::with_capacity(alloc, 24)?;
    if bits >= SIGN {
        text.push(b'-')?;
    }
    Ok(text)
}

/// The text of a float.
pub(crate) fn float_text(alloc: Global, x: f64) -> Result<Vec<u8>, AllocError>
    ensures { IfOk result (λ text. text.items ≡ spec.spelled x) }
{
    let bits = f64_to_bits_with_nan(x);
    let Some(plain) = plain_of(bits % SIGN) else {
        return Vec::from_slice(alloc, of_float(x).as_slice());
    };
    let mut text = sign_of(alloc, bits)?;
    let mut buffer = Buffer::new();
    let digits = buffer.format(plain.digits).as_bytes();
    push_with_point(&mut text, digits, plain.point)?;
    Ok(text)
}

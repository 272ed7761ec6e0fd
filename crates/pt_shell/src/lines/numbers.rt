//! Decimal numbers.

ghost use Rattle.std.specs.Prelude.{◌≡◌, ◌-◌, ◌^◌, ◌≤◌, IfSome};
ghost use Rattle.pt_shell.specs.Numbers as spec;
ghost use Rattle.pt_texts.specs.Numbers.{is_digit};

fn is_digit(byte: u8) -> bool
    ensures { result ≡ is_digit byte }
{
    b'0' <= byte && byte <= b'9'
}

/// The number that the digits write, if there are digits and nothing else, and it is not above the greatest.
fn number_in(most: u64, text: &[u8]) -> Option<u64>
    requires { 9 ≤ most }
    ensures range { IfSome result (λ n. n ≤ most) }
    ensures value { result ≡ spec.number_in most text.now }
{
    match text {
        [] => None,
        _ => number_behind(most, text),
    }
}

/// The number that the digits write, if there is nothing else, and it is not above the greatest.
#[tactic(auto, using(crate::proofs::OneMore::number_step))]
fn number_behind(most: u64, text: &[u8]) -> Option<u64>
    requires { 9 ≤ most }
    ensures range { IfSome result (λ n. n ≤ most) }
    ensures value { result ≡ spec.number_after_digits most 0 text.now }
{
    let mut number: u64 = 0;
    for place in 0..text.len() {
        if !is_digit(text[place]) {
            return None;
        }
        let digit = (text[place] - b'0') as u64;
        if number > (most - digit) / 10 {
            return None;
        }
        number = number * 10 + digit;
    }
    Some(number)
}

/// A number of 8 bits.
pub(crate) fn u8_in(text: &[u8]) -> Option<u8>
    ensures { result ≡ spec.number_in (2 ^ 8 - 1) text.now }
{
    match number_in(255, text) {
        Some(number) => Some(number as u8),
        None => None,
    }
}

/// A number of 32 bits.
pub(crate) fn u32_in(text: &[u8]) -> Option<u32>
    ensures { result ≡ spec.number_in (2 ^ 32 - 1) text.now }
{
    match number_in(4_294_967_295, text) {
        Some(number) => Some(number as u32),
        None => None,
    }
}

/// A number of 64 bits.
pub(crate) fn u64_in(text: &[u8]) -> Option<u64>
    ensures { result ≡ spec.number_in (2 ^ 64 - 1) text.now }
{
    number_in(18_446_744_073_709_551_615, text)
}

/// A number of 64 bits with its sign.
pub(crate) fn i64_in(text: &[u8]) -> Option<i64>
    ensures { result ≡ spec.i64_in text.now }
{
    match text {
        [b'-', rest @ ..] => match number_in(9_223_372_036_854_775_808, rest) {
            Some(number) => Some(negated(number)),
            None => None,
        },
        _ => match number_in(9_223_372_036_854_775_807, text) {
            Some(number) => Some(number as i64),
            None => None,
        },
    }
}

fn negated(number: u64) -> i64
    requires { number ≤ 2 ^ 63 }
    ensures { result ≡ spec.minus_number number }
{
    if number == 0 {
        0
    } else {
        -1 - (number - 1) as i64
    }
}

//! Decimal numbers without zeros in front.

ghost use Rattle.std.specs.Prelude.{◌≡◌, ◌<◌, ◌≤◌, ◌-◌, IfOk};
ghost use Rattle.pt_texts.specs.Numbers.{is_digit, digits_at, number_at, u8_at, u16_at, u32_at, u64_at, i64_at};
ghost use Rattle.pt_texts.specs.Steps.{ReaderGives};

use crate::steps::{Read, behind};

fn is_digit(byte: u8) -> bool
    ensures { result ≡ is_digit byte }
{
    b'0' <= byte && byte <= b'9'
}

/// The digits that follow those of the number.
#[tactic(auto, using(crate::proofs::OneMore::digits_step))]
fn digits_at(most: u64, first: u64, text: &[u8]) -> Read<'_, u64>
    requires most { 9 ≤ most }
    requires first { first ≤ most }
    ensures range { IfOk result (λ read. read.0 ≤ most) }
    ensures value { ReaderGives (λ read. (read.0, read.1.now)) result (digits_at most first text.now) }
{
    let mut number = first;
    for place in 0..text.len() {
        if !is_digit(text[place]) {
            return Ok((number, &text[place..]));
        }
        let digit = (text[place] - b'0') as u64;
        if number > (most - digit) / 10 {
            return Err(text.len() - place);
        }
        number = number * 10 + digit;
    }
    Ok((number, &text[text.len()..]))
}

/// A number from 0 to `most`.
fn number_at(most: u64, text: &[u8]) -> Read<'_, u64>
    requires { 9 ≤ most }
    ensures range { IfOk result (λ read. read.0 ≤ most) }
    ensures value { ReaderGives (λ read. (read.0, read.1.now)) result (number_at most text.now) }
{
    if text.len() == 0 {
        return Err(0);
    }
    if text[0] == b'0' {
        return Ok((0, &text[1..]));
    }
    if !is_digit(text[0]) {
        return Err(text.len());
    }
    digits_at(most, (text[0] - b'0') as u64, &text[1..])
}

/// A number of 8 bits.
pub(crate) fn u8_at(text: &[u8]) -> Read<'_, u8>
    ensures { ReaderGives (λ read. (read.0, read.1.now)) result (u8_at text.now) }
{
    let (number, rest) = number_at(255, text)?;
    Ok((number as u8, rest))
}

/// A number of 16 bits.
pub(crate) fn u16_at(text: &[u8]) -> Read<'_, u16>
    ensures { ReaderGives (λ read. (read.0, read.1.now)) result (u16_at text.now) }
{
    let (number, rest) = number_at(65_535, text)?;
    Ok((number as u16, rest))
}

/// A number of 32 bits.
pub(crate) fn u32_at(text: &[u8]) -> Read<'_, u32>
    ensures { ReaderGives (λ read. (read.0, read.1.now)) result (u32_at text.now) }
{
    let (number, rest) = number_at(4_294_967_295, text)?;
    Ok((number as u32, rest))
}

/// A number of 64 bits.
pub(crate) fn u64_at(text: &[u8]) -> Read<'_, u64>
    ensures { ReaderGives (λ read. (read.0, read.1.now)) result (u64_at text.now) }
{
    number_at(18_446_744_073_709_551_615, text)
}

/// A number of 64 bits with its sign.
pub(crate) fn i64_at(text: &[u8]) -> Read<'_, i64>
    ensures { ReaderGives (λ read. (read.0, read.1.now)) result (i64_at text.now) }
{
    match behind("-", text) {
        Some(digits) => {
            let (number, rest) = number_at(9_223_372_036_854_775_808, digits)?;
            if number == 0 {
                return Err(digits.len());
            }
            Ok((-1 - (number - 1) as i64, rest))
        }
        None => {
            let (number, rest) = number_at(9_223_372_036_854_775_807, text)?;
            Ok((number as i64, rest))
        }
    }
}

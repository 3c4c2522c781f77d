// The fields of a line, as they are shown.
ghost use Rattle.std.specs.Prelude.{◌≤◌};

use aec3_common::Refusal;
use encoding::{bits_of, decimal_digits, hex_digits, put_bytes};
use std::{array, fmt};

// So many fields or flags are written as one text: each write asks for room anew, and a figure by `write!` with a width took four times as
// long as its digits.
const MOST_AT_ONCE: usize = 65;

// A space and eight digits.
const FIELD: usize = 9;

// Writes text in ASCII.
fn write_ascii<W: fmt::Write>(f: &mut fmt::Formatter<W>, text: &[u8]) -> fmt::Result {
    match str::from_utf8(text) {
        Ok(text) => f.write_str(text),
        Err(_) => Err(fmt::Error),
    }
}

// A figure as its bits; of a NaN always the same.
#[derive(Clone, Copy, Debug)]
pub struct Bits(pub f32);

impl fmt::Display for Bits {
    fn fmt<W: fmt::Write>(&self, f: &mut fmt::Formatter<W>) -> fmt::Result {
        write_ascii(f, &hex_digits(bits_of(self.0)))
    }
}

// A field for each of a list, with a space before it.
#[derive(Clone, Copy, Debug)]
pub struct Row<'a, T>(pub &'a [T]);

impl<T: fmt::Display> fmt::Display for Row<'_, T> {
    fn fmt<W: fmt::Write>(&self, f: &mut fmt::Formatter<W>) -> fmt::Result {
        for field in self.0 {
            write!(f, " {field}")?;
        }
        Ok(())
    }
}

// A whole number of 32 bits: whether it is below 0, and its size.
trait Decimal: Copy {
    fn sign_and_size(self) -> (bool, u32);
}

impl Decimal for i32 {
    fn sign_and_size(self) -> (bool, u32) {
        (self < 0, self.unsigned_abs())
    }
}

impl Decimal for u32 {
    fn sign_and_size(self) -> (bool, u32) {
        (false, self)
    }
}

// A space, a sign and ten digits.
const WIDEST_NUMBER: usize = 12;

// The same for numbers of 32 bits, in decimal.
#[derive(Clone, Copy, Debug)]
pub struct Numbers<'a, T>(pub &'a [T]);

impl<T: Decimal> fmt::Display for Numbers<'_, T> {
    fn fmt<W: fmt::Write>(&self, f: &mut fmt::Formatter<W>) -> fmt::Result {
        for numbers in self.0.chunks(MOST_AT_ONCE) {
            let mut text = [0; WIDEST_NUMBER * MOST_AT_ONCE];
            let mut end = 0;
            for &number in numbers {
                end = put_number(&mut text, end, number);
            }
            write_ascii(f, &text[..end.min(WIDEST_NUMBER * MOST_AT_ONCE)])?;
        }
        Ok(())
    }
}

// Puts a number behind a space; the place behind it.
fn put_number<T: Decimal>(text: &mut [u8], at: usize, number: T) -> usize {
    let (negative, size) = number.sign_and_size();
    let before = if negative {
        b" -".as_slice()
    } else {
        b" ".as_slice()
    };
    let mut table = [0; 10];
    let digits = decimal_digits(&mut table, size);
    let place = put_bytes(text, at, before).unwrap_or(at);
    put_bytes(text, place, digits).unwrap_or(place)
}

// The same for figures, as their bits.
#[derive(Clone, Copy, Debug)]
pub struct Figures<'a>(pub &'a [f32]);

impl fmt::Display for Figures<'_> {
    fn fmt<W: fmt::Write>(&self, f: &mut fmt::Formatter<W>) -> fmt::Result {
        for figures in self.0.chunks(MOST_AT_ONCE) {
            let mut text = [b' '; FIELD * MOST_AT_ONCE];
            let end = put_figures(&mut text, figures);
            write_ascii(f, &text[..end])?;
        }
        Ok(())
    }
}

// Puts the digits of so many figures as there is room for behind a space each; the place behind them.
fn put_figures(text: &mut [u8; FIELD * MOST_AT_ONCE], figures: &[f32]) -> usize
    ensures { result ≤ 585 }
{
    let shown = figures.len().min(MOST_AT_ONCE);
    for k in 0..shown {
        let place = FIELD * k;
        text[place + 1..place + FIELD].copy_from_slice(&hex_digits(bits_of(figures[k])));
    }
    FIELD * shown
}

// One field with a digit for each flag.
#[derive(Clone, Copy, Debug)]
pub struct Digits<'a>(pub &'a [bool]);

impl fmt::Display for Digits<'_> {
    fn fmt<W: fmt::Write>(&self, f: &mut fmt::Formatter<W>) -> fmt::Result {
        for flags in self.0.chunks(MOST_AT_ONCE) {
            let digits: [u8; MOST_AT_ONCE] = array::from_fn(|k| b'0'
                + u8::from(flags.get(k) == Some(&true)));
            write_ascii(f, &digits[..flags.len().min(MOST_AT_ONCE)])?;
        }
        Ok(())
    }
}

// What a call answers, or the number under which it is turned away.
#[derive(Clone, Copy, Debug)]
pub struct OrRefused<T>(pub Result<T, Refusal>);

impl<T: fmt::Display> fmt::Display for OrRefused<T> {
    fn fmt<W: fmt::Write>(&self, f: &mut fmt::Formatter<W>) -> fmt::Result {
        match &self.0 {
            Ok(answer) => answer.fmt(f),
            Err(refusal) => write!(f, "refused {refusal}"),
        }
    }
}

// The fields of a record, read one after the other. A field that the record is too short for makes it malformed, and so does
// what is left behind the last one.
ghost use Rattle.std.specs.Prelude.{◌≡◌, ◌<◌, ◌≤◌, ◌↔◌, ◌*◌, ◌/◌, ◌%◌, ℕ, [], length, drop, take, map, min, IsTrue, IsOk, IsErr, IfOk, OnOk, OnErr};
ghost use Rattle.std.specs.Float.{binary32};
ghost use Rattle.std.specs.Float.Ieee.{of_bits};
ghost use Rattle.encoding.specs.Bytes.{byte_at, half_at, word_at};
ghost use Rattle.script.specs.Lists.{words_in, flags_in, floats_in, Computes};

use crate::fault::Malformed;
use crate::table::Table;
use encoding::{float_of, half_at, word_at};

// What is left of a record.
#[derive(Clone, Copy, Debug)]
pub struct Fields<'a> {
    pub rest: &'a [u8],
}

impl<'a> Fields<'a> {
    pub fn new(bytes: &'a [u8]) -> Fields<'a>
        ensures { result.rest.now ≡ bytes.now }
    {
        Fields { rest: bytes }
    }

    // The next bytes, so many.
    fn bytes(&mut self, count: usize) -> Result<&'a [u8], Malformed>
        ensures short { IsErr result ↔ (length self.old.rest.now < count) }
        ensures value { IfOk result (λ bytes. bytes.now ≡ take count self.old.rest.now) }
        ensures rest { OnOk result (self.new.rest.now ≡ drop count self.old.rest.now) }
        ensures err { OnErr result (self.new.rest.now ≡ self.old.rest.now) }
    {
        let (bytes, rest) = self.rest.split_at_checked(count).ok_or(Malformed)?;
        self.rest = rest;
        Ok(bytes)
    }

    // A number of 16 bits.
    pub fn half(&mut self) -> Result<u16, Malformed>
        ensures short { IsErr result ↔ (length self.old.rest.now < 2) }
        ensures value { IfOk result (λ n. n ≡ half_at self.old.rest.now 0) }
        ensures rest { OnOk result (self.new.rest.now ≡ drop 2 self.old.rest.now) }
    {
        let number = half_at(self.rest, 0) as u16;
        self.bytes(2)?;
        Ok(number)
    }

    // A number of 32 bits.
    pub fn word(&mut self) -> Result<u32, Malformed>
        ensures short { IsErr result ↔ (length self.old.rest.now < 4) }
        ensures value { IfOk result (λ n. n ≡ word_at self.old.rest.now 0) }
        ensures rest { OnOk result (self.new.rest.now ≡ drop 4 self.old.rest.now) }
    {
        let number = word_at(self.rest, 0);
        self.bytes(4)?;
        Ok(number)
    }

    pub fn count(&mut self) -> Result<usize, Malformed>
        ensures short { IsErr result ↔ (length self.old.rest.now < 4) }
        ensures value { IfOk result (λ n. n ≡ word_at self.old.rest.now 0) }
        ensures rest { OnOk result (self.new.rest.now ≡ drop 4 self.old.rest.now) }
    {
        Ok(self.word()? as usize)
    }

    pub fn float(&mut self) -> Result<f32, Malformed>
        ensures short { IsErr result ↔ (length self.old.rest.now < 4) }
        ensures value { IfOk result (λ x. x ≡ of_bits binary32 (word_at self.old.rest.now 0)) }
        ensures rest { OnOk result (self.new.rest.now ≡ drop 4 self.old.rest.now) }
    {
        Ok(float_of(self.word()?))
    }

    pub fn flag(&mut self) -> Result<bool, Malformed>
        ensures value { IfOk result (λ flag. IsTrue flag ↔ (word_at self.old.rest.now 0 ≡ 1)) }
        ensures flag_alone { IsOk result → word_at self.old.rest.now 0 < 2 }
        ensures rest { OnOk result (self.new.rest.now ≡ drop 4 self.old.rest.now) }
    {
        flag_of(self.word()?)
    }

    // A list of flags, of one byte each. Each is looked at, also where the table has no room for it.
    pub fn flags<const N: usize>(
        &mut self,
        count: u32,
        flags: &mut Table<bool, N>,
    ) -> Result<(), Malformed>
        ensures short { IsOk result → count ≤ length self.old.rest.now }
        ensures length { OnOk result (length flags.new ≡ min count N) }
        ensures rest { OnOk result (self.new.rest.now ≡ drop count self.old.rest.now) }
        ensures values { OnOk result (flags.new ≡ take N (flags_in (take count self.old.rest.now))) }
        ensures flags_alone { IsOk result → (k : ℕ) → k < count → byte_at self.old.rest.now k < 2 }
    {
        let bytes = self.bytes(count as usize)?;
        for &byte in bytes {
            flag_of(u32::from(byte))?;
        }
        flags.fill(bytes.len(), |k| bytes[k] == 1);
        Ok(())
    }

    pub fn floats<const N: usize>(
        &mut self,
        count: u32,
        floats: &mut Table<f32, N>,
    ) -> Result<(), Malformed>
        ensures short { IsOk result → 4 * count ≤ length self.old.rest.now }
        ensures length { OnOk result (length floats.new ≡ min count N) }
        ensures rest { OnOk result (self.new.rest.now ≡ drop (4 * count) self.old.rest.now) }
        ensures values { OnOk result (floats.new ≡ take N (floats_in (take (4 * count) self.old.rest.now))) }
    {
        let figures = self.bytes(4 * count as usize)?;
        words(figures, floats, float_of);
        Ok(())
    }

    pub fn counts<const N: usize>(
        &mut self,
        count: u32,
        counts: &mut Table<usize, N>,
    ) -> Result<(), Malformed>
        ensures short { IsOk result → 4 * count ≤ length self.old.rest.now }
        ensures length { OnOk result (length counts.new ≡ min count N) }
        ensures rest { OnOk result (self.new.rest.now ≡ drop (4 * count) self.old.rest.now) }
        ensures values { OnOk result (counts.new ≡ take N (words_in (take (4 * count) self.old.rest.now))) }
    {
        let bytes = self.bytes(4 * count as usize)?;
        words(bytes, counts, |word| word as usize);
        Ok(())
    }

    // As many floats as the record has left.
    pub fn floats_left<const N: usize>(
        &mut self,
        floats: &mut Table<f32, N>,
    ) -> Result<(), Malformed>
        ensures whole { IsOk result → length self.old.rest.now % 4 ≡ 0 }
        ensures length { OnOk result (length floats.new ≡ min (length self.old.rest.now / 4) N) }
        ensures rest { OnOk result (self.new.rest.now ≡ []) }
        ensures values { OnOk result (floats.new ≡ take N (floats_in self.old.rest.now)) }
    {
        if self.rest.len() % 4 != 0 {
            return Err(Malformed);
        }
        let left = self.bytes(self.rest.len())?;
        words(left, floats, float_of);
        Ok(())
    }

    // Whether nothing is left.
    pub fn end(self) -> Result<(), Malformed>
        ensures { IsOk result ↔ (self.entry.rest.now ≡ []) }
    {
        if self.rest.is_empty() {
            Ok(())
        } else {
            Err(Malformed)
        }
    }
}

fn flag_of(number: u32) -> Result<bool, Malformed>
    ensures flag_alone { IsOk result ↔ (number < 2) }
    ensures value { IfOk result (λ flag. IsTrue flag ↔ (number ≡ 1)) }
{
    match number {
        0 => Ok(false),
        1 => Ok(true),
        _ => Err(Malformed),
    }
}

// What each four bytes in a row give, as far as the table takes it.
fn words<T: Copy, F: Fn(u32) -> T, const N: usize>(bytes: &[u8], list: &mut Table<T, N>, element: F)
    requires { F.IsAlwaysCallable element }
    ensures length { length list.new ≡ min (length bytes.now / 4) N }
    ensures values { (value : ℕ → T) → Computes (F.post element) value → list.new ≡ take N (map value (words_in bytes.now)) }
{
    list.fill(
        bytes.len() / 4,
        |k| element(word_at(&bytes[4 * k..4 * k + 4], 0)),
    );
}

#[cfg(test)]
mod tests {
    use super::*;
    use std::test::Fail;

    #[test]
    fn reads_lists_of_each_sort(rt: HostRuntime) -> Result<(), Fail> {
        let bytes = [1, 0, 0, 0, 0x80, 0x3f, 2, 0, 0, 0, 0, 0, 0, 0xc0];
        let mut fields = Fields::new(&bytes);
        let mut flags: Table<bool, 3> = Table::filled_with(false);
        let mut floats: Table<f32, 1> = Table::filled_with(0.0);
        let mut counts: Table<usize, 1> = Table::filled_with(0);
        fields.flags(2, &mut flags)?;
        assert_eq!(rt; flags.as_slice(), [true, false].as_slice());
        fields.floats(1, &mut floats)?;
        assert_eq!(rt; floats.as_slice(), [1.0].as_slice());
        fields.counts(1, &mut counts)?;
        assert_eq!(rt; counts.as_slice(), [2].as_slice());
        fields.floats_left(&mut floats)?;
        assert_eq!(rt; floats.as_slice(), [-2.0].as_slice());
        assert_eq!(rt; fields.end(), Ok(()));
        Ok(())
    }
}

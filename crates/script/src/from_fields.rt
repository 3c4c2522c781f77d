// Values that are read from a record's fields.
ghost use Rattle.std.specs.Prelude.{◌≡◌, ◌<◌, ◌≤◌, ◌↔◌, ℕ, List, length, IsTrue, IfOk, OnOk};
ghost use Rattle.std.specs.Float.{binary32};
ghost use Rattle.std.specs.Float.Ieee.{of_bits};
ghost use Rattle.script.specs.Lists.{past, nth_word};

use crate::fault::Malformed;
use crate::fields::Fields;
use aec3_common::{ErleLimits, FilterLayout};

pub trait FromFields: Sized {
    // What may go wrong. Of this project no value says more than `Malformed`; one of another crate may have an error of its own, such as `Fault`.
    type Error;

    // What of these bytes the value is, and which bytes are left behind it.
    ghost reads: { List ℕ → Self → List ℕ → Type 0 };

    fn from_fields(fields: &mut Fields) -> Result<Self, Self::Error>
        ensures { IfOk result (λ value. reads fields.old.rest.now value fields.new.rest.now) };
}

// Lists are long, so they are read where they lie.
pub trait ReadLists: Sized {
    // The same of lists.
    ghost reads: { List ℕ → Self → List ℕ → Type 0 };

    fn none() -> Self;

    fn read_fields(&mut self, fields: &mut Fields) -> Result<(), Malformed>
        ensures { OnOk result (reads fields.old.rest.now self.new fields.new.rest.now) };
}

// Of nothing there are no fields.
impl FromFields for () {
    type Error = Malformed;

    ghost reads = { λ bytes _ rest. rest ≡ bytes };

    fn from_fields(_fields: &mut Fields) -> Result<(), Malformed> {
        Ok(())
    }
}

impl FromFields for bool {
    type Error = Malformed;

    ghost reads = { λ bytes flag rest. (nth_word 0 bytes < 2) × (IsTrue flag ↔ (nth_word 0 bytes ≡ 1)) × (rest ≡ past 1 bytes) };

    fn from_fields(fields: &mut Fields) -> Result<bool, Malformed> {
        fields.flag()
    }
}

impl FromFields for ErleLimits {
    type Error = Malformed;

    ghost reads = { λ bytes limits rest. (limits.min ≡ of_bits binary32 (nth_word 0 bytes)) × (limits.max_l ≡ of_bits binary32 (nth_word 1 bytes)) × (limits.max_h ≡ of_bits binary32 (nth_word 2 bytes)) × (rest ≡ past 3 bytes) };

    fn from_fields(fields: &mut Fields) -> Result<ErleLimits, Malformed> {
        Ok(ErleLimits {
            min: fields.float()?,
            max_l: fields.float()?,
            max_h: fields.float()?,
        })
    }
}

impl FromFields for FilterLayout {
    type Error = Malformed;

    ghost reads = { λ bytes layout rest. (12 ≤ length bytes) × (layout.num_sections ≡ nth_word 0 bytes) × (layout.filter_length_blocks ≡ nth_word 1 bytes) × (layout.delay_headroom_samples ≡ nth_word 2 bytes) × (rest ≡ past 3 bytes) };

    fn from_fields(fields: &mut Fields) -> Result<FilterLayout, Malformed> {
        Ok(FilterLayout {
            num_sections: fields.count()?,
            filter_length_blocks: fields.count()?,
            delay_headroom_samples: fields.count()?,
        })
    }
}

#[cfg(test)]
mod tests {
    use super::*;
    use crate::fault::Fault;
    use std::test::Fail;

    // A number with another error than `Malformed`.
    #[derive(Clone, Copy, Debug, PartialEq, Eq)]
    struct Word(u32);

    impl FromFields for Word {
        type Error = Fault;

        ghost reads = { λ bytes word rest. (word.0 ≡ nth_word 0 bytes) × (rest ≡ past 1 bytes) };

        fn from_fields(fields: &mut Fields) -> Result<Word, Fault> {
            Ok(Word(fields.word()?))
        }
    }

    #[test]
    fn reads_a_value_with_an_error_of_its_own(rt: HostRuntime) -> Result<(), Fail> {
        let mut fields = Fields::new(&[7, 0, 0, 0, 1]);
        assert_eq!(rt; Word::from_fields(&mut fields), Ok(Word(7)));
        assert_eq!(rt; Word::from_fields(&mut fields), Err(Fault::Malformed));
        Ok(())
    }
}

// A record of a script: its kind, and the fields behind it.
ghost use Rattle.std.specs.Prelude.{◌≡◌, ◌<◌, ◌↔◌, ◌/◌, length, drop, IsErr, IfOk};
ghost use Rattle.encoding.specs.Bytes.{half_at};

use crate::fault::Malformed;
use crate::fields::Fields;

#[derive(Clone, Copy, Debug)]
pub struct Record<'a> {
    pub kind: u16,
    pub fields: Fields<'a>,
}

impl<'a> Record<'a> {
    // Malformed where there is no whole kind.
    pub fn new(bytes: &'a [u8]) -> Result<Record<'a>, Malformed>
        ensures short { IsErr result ↔ (length bytes.now < 2) }
        ensures kind { IfOk result (λ r. r.kind ≡ half_at bytes.now 0) }
        ensures fields { IfOk result (λ r. r.fields.rest.now ≡ drop 2 bytes.now) }
    {
        let mut fields = Fields::new(bytes);
        let kind = fields.half()?;
        Ok(Record { kind, fields })
    }

    // The digits before the last one, which tell the sorts of estimators apart.
    pub fn sort(&self) -> u16
        ensures { result ≡ self.now.kind / 16 }
    {
        self.kind / 16
    }
}

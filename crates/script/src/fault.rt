// Why a run ends before its input does.
ghost use Rattle.std.specs.Prelude.{◌≡◌};
ghost use Rattle.script.specs.declared.fault.Fault.TheVariants.{OutOfMemory, Malformed as Fault·Malformed};

use std::alloc::AllocError;

// Bytes that are no record, or a record that is no well-formed call.
#[derive(Clone, Copy, Debug, PartialEq, Eq)]
pub struct Malformed;

// The same, or no memory where some was asked for: an error for other crates, since no function of this one asks for any.
#[derive(Clone, Copy, Debug, PartialEq, Eq)]
pub enum Fault {
    Malformed,
    OutOfMemory(AllocError),
}

impl From<Malformed> for Fault {
    ghost from_gives = { λ _ fault. fault ≡ Fault·Malformed };

    fn from(_malformed: Malformed) -> Fault {
        Fault::Malformed
    }
}

impl From<AllocError> for Fault {
    ghost from_gives = { λ error fault. fault ≡ OutOfMemory error };

    fn from(error: AllocError) -> Fault {
        Fault::OutOfMemory(error)
    }
}

#[cfg(test)]
mod tests {
    use super::*;
    use std::test::Fail;

    fn tried(error: Malformed) -> Result<(), Fault> {
        Err(error)?
    }

    #[test]
    fn a_fault_tells_why(rt: HostRuntime) -> Result<(), Fail> {
        assert_eq!(rt; tried(Malformed), Err(Fault::Malformed));
        assert_eq!(rt; Fault::from(AllocError), Fault::OutOfMemory(AllocError));
        Ok(())
    }
}

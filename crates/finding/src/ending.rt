// Why no listing was written.
ghost use Rattle.std.specs.Prelude.{◌≡◌};
ghost use Rattle.finding.specs.Ending.{Failed, Ended};
ghost use Rattle.finding.specs.declared.ending.Ending.TheVariants.{Refused};

use markup::{Error, Fault};
use std::alloc::AllocError;
use std::io;

// A refusal of the input, or a failure to write, or want of memory.
pub(crate) enum Ending {
    Refused(Fault),
    Failed(io::Error),
}

impl From<Fault> for Ending {
    ghost from_gives = { λ f e. e ≡ Refused f };

    fn from(f: Fault) -> Ending {
        Ending::Refused(f)
    }
}

impl From<io::Error> for Ending {
    ghost from_gives = { λ _ e. Failed e };

    fn from(e: io::Error) -> Ending {
        Ending::Failed(e)
    }
}

impl From<AllocError> for Ending {
    ghost from_gives = { λ _ e. Failed e };

    fn from(e: AllocError) -> Ending {
        Ending::Failed(io::Error::from(e))
    }
}

impl From<Error> for Ending {
    ghost from_gives = { Ended };

    fn from(e: Error) -> Ending {
        match e {
            Error::Refused(f) => Ending::Refused(f),
            Error::Memory => Ending::Failed(io::Error::from(AllocError)),
        }
    }
}

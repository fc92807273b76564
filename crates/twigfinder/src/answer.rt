// What the exported calls give back.
ghost use Rattle.std.specs.Prelude.{◌≡◌};
ghost use Rattle.twigfinder.specs.Answers.{answer_of};

use markup::Error;
use stream::POSITIONS;

// The number for want of memory: no refusal has it.
pub const MEMORY: u32 = 255;

// What a call answers. Granted: number and place are 0, and `count` says how many. Refused: the refusal's number and place, and `count` is 0.
#[repr(C)]
#[derive(Clone, Copy, Debug, PartialEq, Eq)]
pub struct Answer {
    pub number: u32,
    pub place: usize,
    pub count: usize,
}

// The starts of an embedding's elements by the numbers of their nodes, and past the last node the largest number.
#[repr(C)]
#[derive(Clone, Copy, Debug, PartialEq, Eq)]
pub struct Starts {
    pub starts: [u32; POSITIONS],
}

impl From<Result<usize, Error>> for Answer {
    ghost from_gives = { λ r a. a ≡ answer_of r };

    fn from(r: Result<usize, Error>) -> Answer {
        match r {
            Ok(count) => Answer {
                number: 0,
                place: 0,
                count,
            },
            Err(Error::Refused(f)) => Answer {
                number: u32::from(f.refusal.number()),
                place: f.place,
                count: 0,
            },
            Err(Error::Memory) => Answer {
                number: MEMORY,
                place: 0,
                count: 0,
            },
        }
    }
}

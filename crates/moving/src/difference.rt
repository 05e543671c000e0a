ghost use Rattle.std.specs.Prelude.{◌≡◌};
ghost use Rattle.moving.specs.Differences.{difference_code, same_answer};

// Why two images do not hold the same book.
#[derive(Clone, Copy)]
pub enum Difference {
    FirstUnsound,
    SecondUnsound,
    Different,
}

impl Difference {
    // Its number.
    pub fn code(self) -> u32
        ensures { result ≡ difference_code self }
    {
        match self {
            Difference::FirstUnsound => 1,
            Difference::SecondUnsound => 2,
            Difference::Different => 3,
        }
    }
}

// The answer as a C host gets it: the number of the difference, or 0.
pub fn same_answer(outcome: Result<(), Difference>) -> u32
    ensures { result ≡ same_answer outcome }
{
    match outcome {
        Ok(()) => 0,
        Err(difference) => difference.code(),
    }
}

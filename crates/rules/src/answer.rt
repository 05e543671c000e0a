ghost use Rattle.std.specs.Prelude.{◌≡◌, ◌<◌};
ghost use Rattle.rules.specs.Drive.{fault_number, fault_entry, image_number, image_entry, image_told};

// What is wrong with an image; where an entry is bad, which.
#[derive(Clone, Copy)]
pub enum ImageFault {
    WrongLength,
    BadUser(usize),
    BadName(usize),
    BadNumbers(usize),
    BlockOutside(usize),
    BlockBefore(usize),
    ExtentBefore(usize),
    NoFirst(usize),
}

impl ImageFault {
    // Its number.
    #[tactic(auto, unfolding(crate::specs::Drive::fault_number))]
    pub fn number(self) -> u32
        ensures { (result ≡ fault_number self) × (result < 9) }
    {
        match self {
            ImageFault::WrongLength => 1,
            ImageFault::BadUser(_) => 2,
            ImageFault::BadName(_) => 3,
            ImageFault::BadNumbers(_) => 4,
            ImageFault::BlockOutside(_) => 5,
            ImageFault::BlockBefore(_) => 6,
            ImageFault::ExtentBefore(_) => 7,
            ImageFault::NoFirst(_) => 8,
        }
    }

    // The entry that it tells.
    #[tactic(auto, unfolding(crate::specs::Drive::fault_entry))]
    pub fn entry(self) -> usize
        ensures { result ≡ fault_entry self }
    {
        match self {
            ImageFault::WrongLength => 0,
            ImageFault::BadUser(e)
            | ImageFault::BadName(e)
            | ImageFault::BadNumbers(e)
            | ImageFault::BlockOutside(e)
            | ImageFault::BlockBefore(e)
            | ImageFault::ExtentBefore(e)
            | ImageFault::NoFirst(e) => e,
        }
    }
}

// The number of the image check's answer.
#[tactic(auto, unfolding(crate::specs::Drive::image_number))]
pub fn image_number(answer: Result<(), ImageFault>) -> u32
    ensures { (result ≡ image_number answer) × (result < 9) }
{
    match answer {
        Ok(()) => 0,
        Err(fault) => fault.number(),
    }
}

// The entry that it tells.
#[tactic(auto, unfolding(crate::specs::Drive::image_entry))]
pub fn image_entry(answer: Result<(), ImageFault>) -> usize
    ensures { result ≡ image_entry answer }
{
    match answer {
        Ok(()) => 0,
        Err(fault) => fault.entry(),
    }
}

// Both in one number, as a C host gets them.
#[tactic(auto, unfolding(crate::specs::Drive::image_told))]
pub fn image_told(answer: Result<(), ImageFault>) -> u32
    requires { image_entry answer < 256 }
    ensures { result ≡ image_told answer }
{
    image_number(answer) + 256 * (image_entry(answer) as u32)
}

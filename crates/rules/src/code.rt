// The refusals, under the names of include/mpm.h.
ghost use Rattle.std.specs.Prelude.{◌≡◌, ◌<◌};
ghost use Rattle.rules.specs.Refusals.{code_of, answer_of};

// What a search answers that finds no match, which is no refusal.
pub const NO_MATCH: u32 = 255;

// Why a call is refused.
#[derive(Clone, Copy)]
pub enum Refusal {
    // ---- Of every call
    BadCall,
    BadImage,
    BadList,
    BadVector,
    BadDrive,
    // ---- Of whole files
    NotFound,
    NoEmptyEntry,
    ReadOnly,
    InUse,
    CloseNotOpen,
    Exists,
    BadName,
    OpenLimit,
    OpenListFull,
    // ---- Of records
    NoBlock,
    DiskFull,
    NoExtent,
    DirectoryFull,
    PastEnd,
    Differs,
    Locked,
    NotOpen,
    LockLimit,
    BadFileId,
    LockListFull,
}

impl Refusal {
    // Its A + 256 H.
    pub fn code(self) -> u32
        ensures { (result ≡ code_of self) × (result < 4096) }
    {
        match self {
            Refusal::BadCall => 255 + 256 * 13,
            Refusal::BadImage => 255 + 256 * 1,
            Refusal::BadList => 255 + 256 * 12,
            Refusal::BadVector => 255 + 256 * 14,
            Refusal::BadDrive => 255 + 256 * 4,
            Refusal::NotFound => 255,
            Refusal::NoEmptyEntry => 255,
            Refusal::ReadOnly => 255 + 256 * 3,
            Refusal::InUse => 255 + 256 * 5,
            Refusal::CloseNotOpen => 255 + 256 * 6,
            Refusal::Exists => 255 + 256 * 8,
            Refusal::BadName => 255 + 256 * 9,
            Refusal::OpenLimit => 255 + 256 * 10,
            Refusal::OpenListFull => 255 + 256 * 11,
            Refusal::NoBlock => 1,
            Refusal::DiskFull => 2,
            Refusal::NoExtent => 4,
            Refusal::DirectoryFull => 5,
            Refusal::PastEnd => 6,
            Refusal::Differs => 7,
            Refusal::Locked => 8,
            Refusal::NotOpen => 10,
            Refusal::LockLimit => 12,
            Refusal::BadFileId => 13,
            Refusal::LockListFull => 14,
        }
    }
}

// The answer to a call: the number of its refusal, or 0/0.
pub fn answer_of(outcome: Result<(), Refusal>) -> u32
    ensures { result ≡ answer_of outcome }
{
    match outcome {
        Ok(()) => 0,
        Err(refusal) => refusal.code(),
    }
}

// The sixteen calls.
#[derive(Clone, Copy)]
pub enum Routine {
    Open,
    Close,
    SearchFirst,
    SearchNext,
    Delete,
    Make,
    Rename,
    Read,
    Write,
    Size,
    WriteZeros,
    TestWrite,
    Lock,
    Unlock,
    FreeSpace,
    Terminate,
}

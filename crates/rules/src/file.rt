// A file is a user and a name: its eleven bytes with the high bits clear.
#[derive(Clone, Copy, PartialEq, Eq)]
pub struct File {
    pub user: u8,
    pub name: [u8; 11],
}

// What looking up a file tells: the entry of its extent 0, or the number of entries where there is no such file; its
// highest extent, and the entry of that.
#[derive(Clone, Copy)]
pub struct Found {
    pub entry: usize,
    pub extent: usize,
    pub last: usize,
}

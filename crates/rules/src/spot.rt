// Where a record is to be written: the extent's entry, whether it is a new one, the block, whether it is a new one.
#[derive(Clone, Copy)]
pub struct Spot {
    pub entry: usize,
    pub fresh: bool,
    pub block: usize,
    pub taken: bool,
}

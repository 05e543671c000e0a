// The sizes of the buffers, and where in the list's bytes the positions and the rule stand.

pub const FCB_SIZE: usize = 36;

pub const DMA_SIZE: usize = 2048;

pub const LIST_SIZE: usize = 1316;

pub const POSITIONS_AT: usize = 1299;

pub const RULE_AT: usize = 1315;

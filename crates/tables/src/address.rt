// The addresses of the five words in front of the rows (document 01, "The tables").

// the width F
pub const WIDTH: usize = 0;

// the number of blocks B
pub const BLOCKS: usize = 1;

// the reference to the tree
pub const ROOT: usize = 2;

// the first free node
pub const FREE: usize = 3;

// the count of filed blocks
pub const COUNT: usize = 4;

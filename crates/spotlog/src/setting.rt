// The tape's depth, and the number of its first frame. It is drawn, and read back, by 1X, else 2X.
use line::depth::Depth;

pub const DEPTH: Depth = Depth::Ten;

pub const FIRST_FRAME: u64 = 1000;

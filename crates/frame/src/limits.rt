// The numbers of frames.

// A frame's payload has at least this many bytes,
pub(crate) const PAYLOAD_LEAST: usize = 2;
// and at most this many.
pub(crate) const PAYLOAD_MOST: usize = 60;
// The memory of a frame has this many bytes.
pub(crate) const MEMORY: usize = PAYLOAD_MOST;
// Blocks are put behind the two bytes with which each payload begins.
pub(crate) const FIRST_MARK: usize = 2;

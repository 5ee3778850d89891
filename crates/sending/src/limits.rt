// The numbers of the format, which the crates above share.

// A sending has at most this many parts.
pub const PARTS_MOST: usize = 4;
// A version is at most this.
pub const VERSION_MOST: u8 = 15;
// A part has at most this many bytes,
pub const PART_MOST: usize = 51;
// the last of several at most this many.
pub const LAST_MOST: usize = 47;
// A message has at most this many bytes.
pub const MESSAGE_MOST: usize = 200;
// The number and the count, which the count does not count.
pub const UNCOUNTED: usize = 2;
// What comes before the body: number, count, and the byte of version and parts.
pub const BEFORE_BODY: usize = 3;
// A CRC takes this many bytes.
pub const WORD: usize = 4;
// A block takes this many bytes beside its body, without a message CRC.
pub const BESIDE_BODY: usize = 7;
// In the byte of version and parts, the last part's number has the lowest weight; the part's number and the version have these.
pub const PART_WEIGHT: u8 = 4;

pub const VERSION_WEIGHT: u8 = 16;

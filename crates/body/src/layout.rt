// The numbers of the format: sizes in bytes, places in a body, largest values, the weights of flags, and what stands in
// reserved bits as they are written.

// The largest count of milliseconds.
pub const MILLISECONDS_MOST: u16 = 999;

// A time: seconds in four bytes, then six reserved bits and milliseconds in two.
pub const TIME_SIZE: usize = 6;

// From a time's first byte to the one that holds the first bit of its milliseconds.
pub const MILLISECONDS_OFFSET: usize = 4;

// What ten bits can hold: milliseconds, a major and a minor number lie in so many.
pub const TEN_BITS: u32 = 1024;

// The six reserved bits before the ten of milliseconds, as ones: in the byte that holds them,
pub const TIME_ONES: u16 = 252;

// and in the number of both bytes.
pub const TIME_RESERVED: u16 = 0xfc00;

// A channel: BSID in two bytes, then four reserved bits, major and minor number in three.
pub const CHANNEL_SIZE: usize = 5;

// From a channel's first byte to the one that holds the first bit of its major number.
pub const MAJOR_OFFSET: usize = 2;

// From a channel's first byte to the one that holds the first bit of its minor number.
pub const MINOR_OFFSET: usize = 3;

// The largest major or minor number.
pub const CHANNEL_NUMBER_MOST: u16 = 1023;

// What the low part of a major number can hold: the six of its ten bits in its second byte.
pub const MAJOR_LOW: u16 = 64;

// What the high part of a minor number can hold: two of the ten bits lie in its first byte.
pub const MINOR_HIGH: u16 = 4;

// The four reserved bits before the twenty of major and minor number, as ones: in the byte that holds them,
pub const CHANNEL_ONES: u16 = 240;

// and in the number of all three bytes.
pub const CHANNEL_RESERVED: u32 = 0xf0_0000;

// The first byte of a content ID has the flags; content and channel follow it.
pub const FLAGS_SIZE: usize = 1;

// The flag of a content.
pub const CONTENT_FLAG: u8 = 128;

// The flag of a channel.
pub const CHANNEL_FLAG: u8 = 64;

// The six reserved bits after the flags, as ones.
pub const FLAGS_ONES: u8 = 63;

// The byte of the valid-until flag and the type.
pub const TYPE_PLACE: usize = 1;

// The reserved bit before the valid-until flag, as a one.
pub const CONTENT_ONES: u8 = 128;

// The flag of a valid-until time; the type lies in the six bits below it.
pub const UNTIL_FLAG: u8 = 64;

// The largest type of identifier.
pub const TYPE_MOST: u8 = 63;

// The byte that tells the identifier's length.
pub const LENGTH_PLACE: usize = 2;

// Where the valid-until time begins or, without one, the identifier.
pub const UNTIL_PLACE: usize = 3;

// Where the identifier begins after a valid-until time.
pub const LATE_ID_PLACE: usize = 9;

// The longest identifier that a length byte can tell.
pub const ID_MOST: usize = 255;

// The type of an EIDR.
pub const EIDR_TYPE: u8 = 1;

// An EIDR's length.
pub const EIDR_SIZE: usize = 12;

// The type of an Ad-ID.
pub const AD_ID_TYPE: u8 = 2;

// The shortest Ad-ID.
pub const AD_ID_LEAST: usize = 11;

// The longest Ad-ID.
pub const AD_ID_MOST: usize = 12;

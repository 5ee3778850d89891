// The numbers of the format.
use sending::MESSAGE_MOST;

// The bytes with which a tray suffices for every offer.
pub const TRAY_LEAST: usize = 1630;
// The most messages, and the most entries, of a tray.
pub(crate) const MESSAGES_MOST: u8 = 8;

pub(crate) const ENTRIES_MOST: u8 = 9;
// The bytes of a message before its own, and the most that its own are.
pub(crate) const HEAD: usize = 3;

pub(crate) const LENGTH_MOST: u8 = MESSAGE_MOST as u8;

// The most faults that are kept.
pub(crate) const FAULTS_MOST: usize = 9;
// The bytes of a fault, and how many layers there are.
pub(crate) const FAULT: usize = 4;

pub(crate) const LAYERS: u8 = 2;
// The places of a payload at which a block may begin.
pub(crate) const PLACE_LEAST: u8 = 2;

pub(crate) const PLACE_MOST: u8 = 59;

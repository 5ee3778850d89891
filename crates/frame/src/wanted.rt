// A block as it is wanted in a frame.
use sending::Sending;

// One block of a sending, by its index.
#[derive(Clone, Copy)]
pub struct Wanted<'a> {
    pub sending: &'a Sending,
    pub block: u8,
}

// One block, as it is read or to be written.

// One part of a message, with what its block says of it. It borrows its body. It has no model, since callers match on its
// fields: clauses say what it means by `means`.
#[derive(Clone, Copy, PartialEq, Eq, Debug)]
pub struct Block<'a> {
    pub number: u8,
    pub version: u8,
    pub part: u8,
    // the number of the last part of the same message
    pub last: u8,
    pub body: &'a [u8],
    // the CRC of the whole message, which the last of several parts carries
    pub check: Option<u32>,
}

// Lists with commas between their parts.
use crate::decimal::read_number;
use crate::hexadecimal::read_hex;
use crate::pieces::Pieces;
use crate::stop::Stop;
use std::alloc::Global;

// Whether a word writes a list of numbers or samples with nothing in it.
pub(crate) fn is_nothing(word: &[u8]) -> bool {
    matches!(word, b"" | b"-" | b".")
}

// What is read out of each part of a list.
pub(crate) fn read_each<T: Drop, F: Fn(&[u8]) -> Result<T, Stop>>(
    heap: Global,
    word: &[u8],
    read: F,
) -> Result<Vec<T>, Stop>
    requires { F.IsAlwaysCallable read }
{
    let mut items = Vec::new(heap);
    for piece in Pieces::new(word, b',') {
        items.push(read(piece)?)?;
    }
    Ok(items)
}

// The message numbers that a word writes.
pub fn read_numbers(heap: Global, word: &[u8]) -> Result<Vec<u8>, Stop> {
    if is_nothing(word) {
        return Ok(Vec::new(heap));
    }
    read_each(heap, word, read_number)
}

// The rows of bytes that a word writes; a lone point writes none.
pub fn read_parts(heap: Global, word: &[u8]) -> Result<Vec<Vec<u8>>, Stop> {
    if word == b".".as_slice() {
        return Ok(Vec::new(heap));
    }
    read_each(heap, word, |part| read_hex(heap, part))
}

// Identifiers, tested by type, length and characters.
ghost use Rattle.std.specs.Prelude.{◌≡◌, ◌<◌, length, IfSome};
ghost use Rattle.body.specs.Identifiers.{is_alphanumeric, length_fits, wrong_from, misspelt};

use super::layout::{AD_ID_LEAST, AD_ID_MOST, AD_ID_TYPE, EIDR_SIZE, EIDR_TYPE, ID_MOST};

// Whether an Ad-ID may have this character: a digit or a letter of either case.
pub fn is_ad_character(c: u8) -> bool
    ensures answer { result ≡ is_alphanumeric c }
{
    c.is_ascii_alphanumeric()
}

// Whether an identifier of this type, a number as in a content, may have this length.
pub fn fits_length(id_type: u8, length: usize) -> bool
    ensures answer { result ≡ length_fits id_type length }
{
    match id_type {
        EIDR_TYPE => length == EIDR_SIZE,
        AD_ID_TYPE => (AD_ID_LEAST..=AD_ID_MOST).contains(&length),
        _ => length <= ID_MOST,
    }
}

// The index of the first character that an identifier of this type may not have: only Ad-IDs have such.
pub fn wrong_character(id_type: u8, id: &[u8]) -> Option<usize>
    ensures answer { result ≡ misspelt is_alphanumeric id_type id.now }
    ensures within { IfSome result (λ i. i < length id.now) }
{
    match id_type {
        AD_ID_TYPE => id.iter().position(|c| !is_ad_character(*c)),
        _ => None,
    }
}

// Bytes in hexadecimal digits.
ghost use Rattle.std.specs.Prelude.{◌≡◌, ◌≢◌, ◌⊎◌, [], codes, Ok, IsErr, IfOk, IfErr};
ghost use Rattle.hex.specs.Hex.{decode_of};
ghost use Rattle.words.specs.declared.stop.Stop.TheVariants.{What, Memory};

use crate::stop::Stop;
use std::alloc::Global;
use std::fmt;

// Heap and word stay two arguments: an allocator and a text have nothing in common but this call.
// The bytes that a word writes: two digits each, of either case. No bytes are `-`, or an empty word.
pub fn read_hex(heap: Global, word: &[u8]) -> Result<Vec<u8>, Stop>
    ensures bytes { IfOk result (λ v. (word.now ≡ codes "-") × (v.items ≡ []) ⊎ (decode_of word.now ≡ Ok v.items)) }
    ensures what { IfErr result (λ e. (e ≡ Memory) ⊎ (e ≡ What) × (word.now ≢ codes "-") × IsErr (decode_of word.now)) }
{
    if word == b"-".as_slice() {
        return Ok(Vec::new(heap));
    }
    Ok(hex::decode(heap, word)?)
}

// Bytes in capital digits, `-` where there are none. Another format than that of the tapes (crate showing).
#[derive(Clone, Copy)]
pub struct Hex<'a>(pub &'a [u8]);

impl fmt::Display for Hex<'_> {
    fn fmt<W: fmt::Write>(&self, f: &mut fmt::Formatter<W>) -> fmt::Result {
        if self.0.is_empty() {
            return f.write_str("-");
        }
        for byte in self.0 {
            write!(f, "{byte:02X}")?;
        }
        Ok(())
    }
}

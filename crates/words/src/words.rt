// The words of a line, taken one by one.
ghost use Rattle.std.specs.Prelude.{◌≡◌, ◌≢◌, ◌⊎◌, ℕ, ◌-◌, ◌^◌, ◌<◌, ◌≤◌, [], codes, Some, Ok, Err, is_some, if◌then◌else◌, IfSome, IfOk, IfErr, IsErr};
ghost use Rattle.std.specs.Option.{option_copied, ok_or};
ghost use Rattle.std.specs.Result.{result_ok};
ghost use Rattle.hex.specs.Hex.{decode_of};
ghost use Rattle.words.specs.declared.stop.Stop.TheVariants.{What, Memory};
ghost use Rattle.words.specs.Digits.{number_of, NumberRead, OrNone};
ghost use Rattle.words.specs.Pieces.{Taken, Takes};

use crate::decimal::{read_decimal, read_number};
use crate::hexadecimal::read_hex;
use crate::pieces::Pieces;
use crate::stop::Stop;
use std::alloc::Global;

// The most of anything that is counted in a case.
pub const COUNT_MOST: u64 = 1_000_000;

#[derive(Drop)]
pub struct Words<'a> {
    pieces: Pieces<'a>,
}

// A count, a length or an index.
fn read_count(word: &[u8]) -> Result<usize, Stop>
    ensures answer { result ≡ ok_or (number_of 1000000 word.now) What }
    ensures most { IfOk result (λ count. count ≤ 1000000) }
{
    let count = read_decimal(word, COUNT_MOST).ok_or(Stop::What)?;
    Ok(count as usize)
}

// That a step leaves the separator is said at each: it speaks of before and after, which no invariant can.
impl<'a> Words<'a> {
    pub fn new(line: &'a [u8]) -> Self
        ensures rest { option_copied result.pieces.rest ≡ Some line.now }
        ensures separator { result.pieces.separator ≡ 32 }
    {
        Words::between(line, b' ')
    }

    // Words with another separator between them: the fields of a word.
    pub fn between(bytes: &'a [u8], separator: u8) -> Self
        ensures rest { option_copied result.pieces.rest ≡ Some bytes.now }
        ensures separator { result.pieces.separator ≡ separator }
    {
        Words {
            pieces: Pieces::new(bytes, separator),
        }
    }

    // The next word.
    pub fn word(&mut self) -> Result<&'a [u8], Stop>
        ensures answer { Taken self.old.pieces.separator (option_copied self.old.pieces.rest) (option_copied (result_ok result)) (option_copied self.new.pieces.rest) }
        ensures what { IfErr result (λ e. e ≡ What) }
        ensures separator { self.new.pieces.separator ≡ self.old.pieces.separator }
    {
        self.pieces.next().ok_or(Stop::What)
    }

    // No word is left.
    pub fn end(&mut self) -> Result<(), Stop>
        ensures answer { result ≡ (if is_some self.old.pieces.rest then Err What else Ok tt) }
    {
        match self.pieces.next() {
            Some(_) => Err(Stop::What),
            None => Ok(()),
        }
    }

    // A number, at most so much. Beside the one by a type, since no public function goes.
    pub fn number(&mut self, most: u64) -> Result<u64, Stop>
        ensures most { IfOk result (λ value. value ≤ most) }
        ensures answer { Takes self.old.pieces.separator (option_copied self.old.pieces.rest) (option_copied self.new.pieces.rest) (result ≡ Err What) (λ w. result ≡ ok_or (number_of most w) What) }
        ensures separator { self.new.pieces.separator ≡ self.old.pieces.separator }
    {
        read_decimal(self.word()?, most).ok_or(Stop::What)
    }

    // A number that its type has.
    pub fn value<T: TryFrom<u64>>(&mut self) -> Result<T, Stop>
    where
        T::Error: Drop,
        ensures most { IfOk result (λ x. (n : ℕ) × (n < 2 ^ 64) × T.TryFrom.try_from_gives n (Ok x)) }
        ensures answer { Takes self.old.pieces.separator (option_copied self.old.pieces.rest) (option_copied self.new.pieces.rest) (result ≡ Err What) (λ w. NumberRead T.TryFrom.try_from_gives (number_of (2 ^ 64 - 1) w) result) }
        ensures separator { self.new.pieces.separator ≡ self.old.pieces.separator }
    {
        read_number(self.word()?)
    }

    // A number at most so much, or none for `-`; beside the one by a type too.
    pub fn optional(&mut self, most: u64) -> Result<Option<u64>, Stop>
        ensures most { IfOk result (λ value. IfSome value (λ n. n ≤ most)) }
        ensures answer { Takes self.old.pieces.separator (option_copied self.old.pieces.rest) (option_copied self.new.pieces.rest) (result ≡ Err What) (λ w. OrNone w (λ r. r ≡ ok_or (number_of most w) What) result) }
        ensures separator { self.new.pieces.separator ≡ self.old.pieces.separator }
    {
        match self.word()? {
            b"-" => Ok(None),
            word => Ok(Some(read_decimal(word, most).ok_or(Stop::What)?)),
        }
    }

    // A number that its type has, or none for `-`.
    pub fn optional_value<T: TryFrom<u64>>(&mut self) -> Result<Option<T>, Stop>
    where
        T::Error: Drop,
        ensures most { IfOk result (λ value. IfSome value (λ x. (n : ℕ) × (n < 2 ^ 64) × T.TryFrom.try_from_gives n (Ok x))) }
        ensures answer { Takes self.old.pieces.separator (option_copied self.old.pieces.rest) (option_copied self.new.pieces.rest) (result ≡ Err What) (λ w. OrNone w (NumberRead T.TryFrom.try_from_gives (number_of (2 ^ 64 - 1) w)) result) }
        ensures separator { self.new.pieces.separator ≡ self.old.pieces.separator }
    {
        match self.word()? {
            b"-" => Ok(None),
            word => Ok(Some(read_number(word)?)),
        }
    }

    // A count, a length or an index.
    pub fn count(&mut self) -> Result<usize, Stop>
        ensures most { IfOk result (λ count. count ≤ 1000000) }
        ensures answer { Takes self.old.pieces.separator (option_copied self.old.pieces.rest) (option_copied self.new.pieces.rest) (result ≡ Err What) (λ w. result ≡ ok_or (number_of 1000000 w) What) }
        ensures separator { self.new.pieces.separator ≡ self.old.pieces.separator }
    {
        read_count(self.word()?)
    }

    // A count, or another where no word is left.
    pub fn count_or(&mut self, other: usize) -> Result<usize, Stop>
        ensures answer { Takes self.old.pieces.separator (option_copied self.old.pieces.rest) (option_copied self.new.pieces.rest) (result ≡ Ok other) (λ w. result ≡ ok_or (number_of 1000000 w) What) }
        ensures separator { self.new.pieces.separator ≡ self.old.pieces.separator }
    {
        match self.pieces.next() {
            Some(word) => read_count(word),
            None => Ok(other),
        }
    }

    // The words that are left.
    pub fn rest(self) -> Pieces<'a>
        ensures answer { result ≡ self.entry.pieces }
    {
        self.pieces
    }

    // Hexadecimal bytes.
    pub fn hex(&mut self, heap: Global) -> Result<Vec<u8>, Stop>
        ensures answer { Takes self.old.pieces.separator (option_copied self.old.pieces.rest) (option_copied self.new.pieces.rest) (result ≡ Err What) (λ w. IfOk result (λ v. (w ≡ codes "-") × (v.items ≡ []) ⊎ (decode_of w ≡ Ok v.items)) × IfErr result (λ e. (e ≡ Memory) ⊎ (e ≡ What) × (w ≢ codes "-") × IsErr (decode_of w))) }
        ensures separator { self.new.pieces.separator ≡ self.old.pieces.separator }
    {
        read_hex(heap, self.word()?)
    }
}

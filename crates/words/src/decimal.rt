// Decimal numbers.
ghost use Rattle.std.specs.Prelude.{◌≡◌, ℕ, ◌-◌, ◌^◌, ◌<◌, ◌≤◌, Ok, IfSome, IfOk};
ghost use Rattle.words.specs.Digits.{with_digit, number_of, NumberRead};

use crate::stop::Stop;

// A value with one more digit behind it, where that is a digit and the value is at most so much.
fn more(value: u64, c: u8, most: u64) -> Option<u64>
    ensures { result ≡ with_digit most value c }
{
    let digit = char::from(c).to_digit(10)?;
    let more = value.checked_mul(10)?.checked_add(u64::from(digit))?;
    if more > most { None } else { Some(more) }
}

// The number that a word of decimal digits writes, where it is at most so much.
pub fn read_decimal(word: &[u8], most: u64) -> Option<u64>
    ensures answer { result ≡ number_of most word.now }
    ensures most { IfSome result (λ value. value ≤ most) }
{
    if word.is_empty() {
        return None;
    }
    // digit by digit, since `parse` takes a sign too, which a word may not have
    let mut value = 0;
    for c in word {
        value = more(value, *c, most)?;
    }
    Some(value)
}

// The number that a word of decimal digits writes, where its type has it.
pub fn read_number<T: TryFrom<u64>>(word: &[u8]) -> Result<T, Stop>
where
    T::Error: Drop,
    ensures answer { NumberRead T.TryFrom.try_from_gives (number_of (2 ^ 64 - 1) word.now) result }
    ensures most { IfOk result (λ x. (n : ℕ) × (n < 2 ^ 64) × T.TryFrom.try_from_gives n (Ok x)) }
{
    let number = read_decimal(word, u64::MAX).ok_or(Stop::What)?;
    T::try_from(number).map_err(|_| Stop::What)
}

// Bytes cut at a separator: lines at line feeds, words at blanks, lists at commas.
ghost use Rattle.std.specs.Prelude.{◌≡◌, ◌+◌, length, None, Some};
ghost use Rattle.std.specs.Iterator.{at_most};
ghost use Rattle.std.specs.Option.{option_copied};
ghost use Rattle.words.specs.Pieces.{Taken};

// The pieces still to come, none behind the last. Bytes without a separator are one piece, also where there are none.
#[derive(Drop)]
pub struct Pieces<'a> {
    pub(crate) rest: Option<&'a [u8]>,
    pub(crate) separator: u8,
}

impl<'a> Pieces<'a> {
    pub fn new(bytes: &'a [u8], separator: u8) -> Self
        ensures rest { option_copied result.rest ≡ Some bytes.now }
        ensures separator { result.separator ≡ separator }
    {
        Pieces {
            rest: Some(bytes),
            separator,
        }
    }
}

impl<'a> Iterator for Pieces<'a> {
    type Item = &'a [u8];

    ghost next_gives = { λ s r t. Taken s.separator (option_copied s.rest) (option_copied r) (option_copied t.rest) × (t.separator ≡ s.separator) };

    ghost remaining = { λ s. at_most (elim s.rest [ None ↦ 0 | Some rest ↦ length rest.now + 1 ]) };

    fn next(&mut self) -> Option<&'a [u8]> {
        let rest = self.rest.take()?;
        let separator = self.separator;
        match rest.iter().position(|byte| *byte == separator) {
            Some(at) => {
                self.rest = Some(&rest[at + 1..]);
                Some(&rest[..at])
            }
            None => Some(rest),
        }
    }
}

// How bytes, text and blocks are printed.
ghost use Rattle.std.specs.Prelude.{◌≡◌, Some, map};
ghost use Rattle.showing.specs.Texts.{hex_text, shown, head_text};

use sending::Block;
use std::fmt;

// Bytes as capital hexadecimal digits, each after a blank.
#[derive(Clone, Copy)]
pub struct Hex<'a>(pub &'a [u8]);

impl fmt::Display for Hex<'_> {
    ghost output = { λ hex. Some (hex_text hex.0.now) };

    fn fmt<W: fmt::Write>(&self, f: &mut fmt::Formatter<W>) -> fmt::Result {
        for byte in self.0 {
            write!(f, " {byte:02X}")?;
        }
        Ok(())
    }
}

// The character that is printed for a byte.
fn shown(byte: u8) -> char
    ensures { result ≡ shown byte }
{
    match byte {
        b' '..=b'~' => char::from(byte),
        _ => '.',
    }
}

// Bytes as characters; one that can't be printed as a point.
#[derive(Clone, Copy)]
pub struct Text<'a>(pub &'a [u8]);

impl fmt::Display for Text<'_> {
    ghost output = { λ text. Some (map shown text.0.now) };

    fn fmt<W: fmt::Write>(&self, f: &mut fmt::Formatter<W>) -> fmt::Result {
        for byte in self.0 {
            let c = shown(*byte);
            write!(f, "{c}")?;
        }
        Ok(())
    }
}

// What a block says of its part.
#[derive(Clone, Copy)]
pub struct Head<'a>(pub Block<'a>);

impl fmt::Display for Head<'_> {
    ghost output = { λ head. Some (head_text head.0) };

    fn fmt<W: fmt::Write>(&self, f: &mut fmt::Formatter<W>) -> fmt::Result {
        let Block {
            number,
            version,
            part,
            last,
            body: _,
            check: _,
        } = self.0;
        write!(
            f,
            "number {number:>3} version {version:>2} part {part} last {last}"
        )
    }
}

// Answers put together piece by piece.
use std::alloc::Global;
use std::fmt;
use words::Stop;

// A value as an answer writes it.
#[derive(Clone, Copy)]
pub struct Shown<T>(pub T);

// A value, or `-` where there is none.
#[derive(Clone, Copy)]
pub struct OrDash<T>(pub Option<T>);

impl<T: fmt::Display> fmt::Display for OrDash<T> {
    fn fmt<W: fmt::Write>(&self, f: &mut fmt::Formatter<W>) -> fmt::Result {
        match &self.0 {
            Some(value) => write!(f, "{value}"),
            None => f.write_str("-"),
        }
    }
}

pub fn ok(heap: Global) -> Result<String, Stop> {
    Ok(String::from_str(heap, "ok")?)
}

// Entries, or that there is none.
pub fn entries(heap: Global, text: String) -> Result<String, Stop> {
    if text.is_empty() {
        return Ok(String::from_str(heap, "empty")?);
    }
    Ok(text)
}

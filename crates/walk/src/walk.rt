// The place that a walk has reached.
ghost use Rattle.std.specs.Prelude.{◌≤◌, length};

// A walk over a payload, from entry to entry.
#[derive(Drop)]
pub struct Walk<'a> {
    pub(crate) payload: &'a [u8],
    pub(crate) place: usize,
    ghost within: { place ≤ length payload.now },
}

// The samples of a line, from bytes.
ghost use Rattle.std.specs.Prelude.{◌≡◌, ◌/◌, length};
ghost use Rattle.capture.specs.Readings.{samples_of};

// Fills the line with the samples that the bytes hold, by place: of what a `zip` with `iter_mut` writes, a proof knows nothing.
pub(crate) fn gather(bytes: &[u8], line: &mut [u16])
    requires room { length line.old ≡ length bytes.now / 2 }
    ensures { line.new ≡ samples_of bytes.now }
{
    for (i, sample) in line.iter_mut().enumerate() {
        *sample = u16::from_le_bytes([bytes[2 * i], bytes[2 * i + 1]]);
    }
}

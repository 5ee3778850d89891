#![tactic(auto)]

// What several crates do with buffers: the write at a place, with what a buffer holds afterwards, and the laws of such writes.
ghost use Rattle.std.specs.Prelude.{◌≡◌, length};
ghost use Rattle.buffers.specs.Laid.{laying, laid_or_not};

// Writes the bytes at a place of the buffer, and answers where they end. Where they don't fit nothing is written.
pub fn lay(out: &mut [u8], at: usize, bytes: &[u8]) -> Option<usize>
    ensures end { result ≡ laying at bytes.now (length out.old) }
    ensures out { out.new ≡ laid_or_not at bytes.now out.old }
{
    if at > out.len() || out.len() - at < bytes.len() {
        return None;
    }
    let end = at + bytes.len();
    out[at..end].copy_from_slice(bytes);
    Some(end)
}

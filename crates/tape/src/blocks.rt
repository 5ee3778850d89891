// Blocks: a message is cut, its blocks are written, and a payload with a damaged block is walked.
use sending::{Room, Sending};
use showing::{Head, Hex, PAYLOAD_LENGTH};
use std::fmt;
use walk::{Entry, Walk};
use wire::{block_length, write_block};

const MESSAGE: &[u8] = b"reference tape 42, spot 17, side A ...";

// An entry of a walk as it is printed.
#[derive(Clone, Copy)]
struct Shown<'a>(Entry<'a>);

impl fmt::Display for Shown<'_> {
    fn fmt<W: fmt::Write>(&self, f: &mut fmt::Formatter<W>) -> fmt::Result {
        match self.0 {
            Entry::Block { place, block } => {
                let head = Head(block);
                let length = block.body.len();
                write!(f, "place {place:>2} block {head} bytes {length:>2}")
            }
            Entry::Fault {
                place,
                cause,
                number,
            } => {
                let cause = cause.number();
                write!(f, "place {place:>2} fault number {number:>3} cause {cause}")
            }
        }
    }
}

// Prints the blocks of a sending, and puts them one behind the other into a payload.
fn show_blocks(rt: &HostRuntime, sending: &Sending) -> anyhow::Result<Vec<u8>> {
    let mut payload = Vec::from_slice(rt.alloc(), &[0xeb, 0x52])?;
    // the number is the part's own, and no index
    for part in (0..4).take(sending.parts()) {
        let mut block = vec![in rt.alloc(); 0; block_length(sending, part)?]?;
        let _end = write_block(sending, part, &mut block, 0)?;
        let place = payload.len();
        let bytes = Hex(&block);
        println!(rt; "block     part {part} place {place:>2} bytes{bytes}")?;
        payload.extend_from_slice(&block)?;
    }
    payload.resize(PAYLOAD_LENGTH, 0)?;
    Ok(payload)
}

// Cuts a message, writes its blocks, damages one, and walks the payload.
pub fn show(rt: &HostRuntime) -> anyhow::Result<()> {
    let sending = Sending::cut(2, 3, MESSAGE, Room::OneX)?;
    println!(rt; "Blocks: a message cut, its blocks written, one damaged, and the payload walked")?;
    println!(rt;
        "sending   number {} version {} parts {} bytes {}",
        sending.number(),
        sending.version(),
        sending.parts(),
        sending.message().len()
    )?;
    let mut payload = show_blocks(rt, &sending)?;
    if let Some(byte) = payload.get_mut(40) {
        *byte ^= 0x10;
    }
    println!(rt; "damaged   place 40")?;
    for entry in Walk::new(&payload).map(Shown) {
        println!(rt; "entry     {entry}")?;
    }
    Ok(())
}

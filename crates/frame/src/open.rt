// Opening and sealing.
ghost use Rattle.std.specs.Prelude.{◌≡◌, ◌-◌, [], ◌++◌, replicate, IfOk};
ghost use Rattle.frame.specs.Frames.{Holds, Seals, SealedOver};
ghost use Rattle.frame.specs.Groups.{IsOpen, filled};
ghost use Rattle.frame.specs.Marking.{opening};

use super::frame::{Fill, OpenFrame, SealedFrame};
use super::limits::{FIRST_MARK, MEMORY, PAYLOAD_LEAST, PAYLOAD_MOST};
use line::checks::RUN_IN;
use refusal::Refusal;

impl OpenFrame {
    // A frame for a payload of `size` bytes: EB 52 and zeros. Refused outside 2 to 60.
    pub fn open(size: usize) -> Result<OpenFrame, Refusal>
        ensures answer { result ≡ opening size }
        ensures blocks { IfOk result (λ f. Holds (filled f) []) }
        ensures is_open { IfOk result IsOpen }
    {
        if !(PAYLOAD_LEAST..=PAYLOAD_MOST).contains(&size) {
            return Err(Refusal::Payload);
        }
        let mut bytes = [0; MEMORY];
        bytes[..FIRST_MARK].copy_from_slice(&RUN_IN);
        Ok(OpenFrame {
            bytes,
            fill: Fill {
                size,
                mark: FIRST_MARK,
            },
        })
    }

    // Zeroes all above the mark: nothing more is put.
    pub fn seal(self) -> SealedFrame
        ensures payload { result ≡ filled self ++ replicate (self.size - self.mark) 0 }
        ensures blocks { Seals (filled self) result }
        ensures was_open { IsOpen self }
        ensures sealed { SealedOver result }
    {
        let OpenFrame { mut bytes, fill } = self;
        bytes[fill.mark..].fill(0);
        SealedFrame {
            bytes,
            size: fill.size,
        }
    }
}

// Examples of blocks, sendings and walks, each computed by the code and compared with bytes and lengths from outside.
// Nothing here is used by other crates.
#![tactic(auto)]

#[cfg(test)]
mod tests {
    use crc::crc32;
    use refusal::Refusal;
    use sending::{Room, Sending};
    use std::test::Fail;
    use walk::{Entry, Walk};
    use wire::write_block;

    // What a walk over a payload gives: how many blocks are read, how many faults, and the number of the last fault's cause and its place.
    #[derive(Drop, PartialEq, Eq, Debug)]
    struct Seen {
        blocks: usize,
        faults: usize,
        last: Option<(u8, usize)>,
    }

    impl Seen {
        fn new(blocks: usize, faults: usize, cause: u8, place: usize) -> Seen {
            Seen {
                blocks,
                faults,
                last: Some((cause, place)),
            }
        }
    }

    fn walk_over(payload: &[u8]) -> Seen {
        let mut all = Seen {
            blocks: 0,
            faults: 0,
            last: None,
        };
        for entry in Walk::new(payload) {
            match entry {
                Entry::Block { .. } => all.blocks = all.blocks.wrapping_add(1),
                Entry::Fault { place, cause, .. } => {
                    all.faults = all.faults.wrapping_add(1);
                    all.last = Some((cause.number(), place));
                }
            }
        }
        all
    }

    // A block without body, with any byte of version and parts, and a right CRC_32.
    fn bare_block(number: u8, byte: u8) -> [u8; 7] {
        let [a, b, c, d] = crc32(&[number, 5, byte]).to_be_bytes();
        [number, 5, byte, a, b, c, d]
    }

    // EB 52, two blocks of seven bytes, and two zeros.
    fn two_blocks(first: &[u8; 7], second: &[u8; 7]) -> [u8; 18] {
        let mut payload = [0; 18];
        payload[..2].copy_from_slice(&[0xEB, 0x52]);
        payload[2..9].copy_from_slice(first);
        payload[9..16].copy_from_slice(second);
        payload
    }

    // How many parts a message of some bytes is cut into in 1X, and how long each is.
    fn cut_in_1x(length: usize) -> Result<(usize, [Option<usize>; 4]), Refusal> {
        let message = [7; 80];
        let sending = Sending::cut(1, 0, message.get(..length).unwrap_or(&[]), Room::OneX)?;
        let lengths = [0, 1, 2, 3].map(|i| sending.part(i).map(|part| part.len()));
        Ok((sending.parts(), lengths))
    }

    // The number of the last part: each call on a sending tells that it keeps the rule, so that there is one.
    fn last_part(sending: &Sending) -> usize {
        sending.parts() - 1
    }

    // Writes the first block of a sending eight times, from place 2 on, and answers where the last one ends.
    fn eight_times(sending: &Sending, payload: &mut [u8]) -> Result<usize, Refusal> {
        let mut at = 2;
        for _ in 0..8 {
            at = write_block(sending, 0, payload, at)?;
        }
        Ok(at)
    }

    #[test]
    fn crc_of_nine_digits(rt: HostRuntime) {
        assert_eq!(rt; crc32(b"123456789"), 0x0376_E6E7);
    }

    // 21; 21 + 1 for 22; 21 + 17 for 38; 21 + 18 + 0 for 39.
    #[test]
    fn cuts_in_1x(rt: HostRuntime) -> Result<(), Fail> {
        assert_eq!(rt; cut_in_1x(21)?, (1, [Some(21), None, None, None]));
        assert_eq!(rt; cut_in_1x(22)?, (2, [Some(21), Some(1), None, None]));
        Ok(())
    }

    #[test]
    fn cuts_at_the_edge(rt: HostRuntime) -> Result<(), Fail> {
        assert_eq!(rt; cut_in_1x(38)?, (2, [Some(21), Some(17), None, None]));
        assert_eq!(rt; cut_in_1x(39)?, (3, [Some(21), Some(18), Some(0), None]));
        Ok(())
    }

    // Version 15, part 1 of last 2.
    #[test]
    fn byte_of_version_and_parts(rt: HostRuntime) -> Result<(), Fail> {
        let sending = Sending::of_parts(7, 15, &[b"abc", b"de", b""])?;
        let mut out = [0; 9];
        assert_eq!(rt; write_block(&sending, 1, &mut out, 0)?, 9);
        assert_eq!(rt; &out[..3], [7, 7, 0xF6].as_slice());
        assert_eq!(rt; last_part(&sending), 2);
        Ok(())
    }

    // A count of 4, and a block past the end.
    #[test]
    fn cause_1(rt: HostRuntime) {
        assert_eq!(rt;
            walk_over(&[0xEB, 0x52, 1, 4, 0, 0, 0, 0, 0]),
            Seen::new(0, 1, 1, 2)
        );
        let far = walk_over(&[0xEB, 0x52, 1, 6, 0, 0, 0, 0, 0]);
        assert_eq!(rt; far.last, Some((1, 2)));
        assert_eq!(rt; walk_over(&[0xEB, 0x52, 1]).last, Some((1, 2)));
    }

    // A wrong CRC_32 finishes the line: the block behind it is not read.
    #[test]
    fn cause_2(rt: HostRuntime) {
        assert_eq!(rt;
            walk_over(&two_blocks(&[1, 5, 0, 1, 2, 3, 4], &bare_block(2, 0))),
            Seen::new(0, 1, 2, 2)
        );
    }

    // Part 1 of last 0; the block behind it is read. Each cause is a test of its own, so this one and the next look alike.
    #[test]
    fn cause_3(rt: HostRuntime) {
        assert_eq!(rt;
            walk_over(&two_blocks(&bare_block(1, 0x04), &bare_block(2, 0))),
            Seen::new(1, 1, 3, 2)
        );
    }

    // The last of two with a count of 5; the block before it is read.
    #[test]
    fn cause_4(rt: HostRuntime) {
        assert_eq!(rt;
            walk_over(&two_blocks(&bare_block(1, 0), &bare_block(2, 0x05))),
            Seen::new(1, 1, 4, 9)
        );
    }

    // 58 bytes hold eight blocks of seven.
    #[test]
    fn eight_empty_blocks(rt: HostRuntime) -> Result<(), Fail> {
        let sending = Sending::of_parts(9, 1, &[b""])?;
        let mut payload = [0; 60];
        assert_eq!(rt; eight_times(&sending, &mut payload)?, 58);
        let all = walk_over(&payload);
        assert_eq!(rt; all.blocks, 8);
        assert_eq!(rt; all.faults, 0);
        Ok(())
    }
}

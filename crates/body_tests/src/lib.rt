#![tactic(auto)]

// The worked bytes of the format, and each wrong place once, reading and writing.
#[cfg(test)]
mod tests {
    use body::{
        Channel, Content, ContentId, ContentIds, Format, KindName, PlainBytes, PresentationTimes,
        Time, kind_of, read_body,
    };
    use body_writing::write_body;
    use refusal::Refusal;
    use std::test::Fail;

    const EIDR: [u8; 12] = [
        0x14, 0x78, 0x77, 0x91, 0x85, 0x34, 0x2c, 0x23, 0x90, 0x30, 0x86, 0x10,
    ];

    const ALMOST_TWO: Time = Time {
        seconds: 1,
        milliseconds: 999,
    };

    // The number and the place of the refusal of an answer.
    fn refused<T: Drop>(answer: Result<T, Refusal>) -> Option<(u8, u64)> {
        match answer {
            Ok(_) => None,
            Err(refusal) => Some((refusal.number(), refusal.place())),
        }
    }

    // The same of a content ID body that is read.
    fn read_refused(body: &[u8]) -> Option<(u8, u64)> {
        refused(read_body::<ContentIds>(body))
    }

    // The same of a content ID message in the call that writes and reads back.
    fn write_refused(message: &ContentId) -> Option<(u8, u64)> {
        refused(write_body::<ContentIds>(message, &mut [0xaa; 300]))
    }

    // A message with a content alone.
    fn content(id_type: u8, valid_until: Option<Time>, id: &[u8]) -> ContentId {
        ContentId {
            content: Some(Content {
                id_type,
                valid_until,
                id,
            }),
            channel: None,
        }
    }

    // A message with a channel alone.
    fn channel(bsid: u16, major: u16, minor: u16) -> ContentId<'static> {
        ContentId {
            content: None,
            channel: Some(Channel { bsid, major, minor }),
        }
    }

    #[test]
    fn a_presentation_time(rt: HostRuntime) -> Result<(), Fail> {
        let mut out = [0xaau8; 8];
        let n = write_body::<PresentationTimes>(&ALMOST_TWO, &mut out)?;
        assert_eq!(rt; n, 6);
        assert_eq!(rt; out, [0, 0, 0, 1, 0xff, 0xe7, 0xaa, 0xaa]);
        let time = read_body::<PresentationTimes>(&[0, 0, 0, 1, 0xff, 0xe7])?;
        assert_eq!(rt; time, ALMOST_TWO);
        Ok(())
    }

    #[test]
    fn a_channel_alone(rt: HostRuntime) -> Result<(), Fail> {
        let mut out = [0xaau8; 8];
        let n = write_body::<ContentIds>(&channel(0x0102, 5, 1), &mut out)?;
        assert_eq!(rt; n, 6);
        assert_eq!(rt; out, [0x7f, 0x01, 0x02, 0xf0, 0x14, 0x01, 0xaa, 0xaa]);
        Ok(())
    }

    #[test]
    fn an_eidr(rt: HostRuntime) -> Result<(), Fail> {
        let mut out = [0xaau8; 15];
        let n = write_body::<ContentIds>(&content(1, None, &EIDR), &mut out)?;
        assert_eq!(rt; n, 15);
        assert_eq!(rt;
            out,
            [
                0xbf, 0x81, 12, 0x14, 0x78, 0x77, 0x91, 0x85, 0x34, 0x2c, 0x23, 0x90, 0x30, 0x86,
                0x10,
            ]
        );
        Ok(())
    }

    #[test]
    fn an_ad_id_until(rt: HostRuntime) -> Result<(), Fail> {
        let mut out = [0xaau8; 20];
        let n = write_body::<ContentIds>(&content(2, Some(ALMOST_TWO), b"ABCD0123xyz"), &mut out)?;
        assert_eq!(rt; n, 20);
        assert_eq!(rt;
            out,
            [
                0xbf, 0xc2, 11, 0, 0, 0, 1, 0xff, 0xe7, b'A', b'B', b'C', b'D', b'0', b'1', b'2',
                b'3', b'x', b'y', b'z',
            ]
        );
        Ok(())
    }

    #[test]
    fn reserved_bits_are_not_looked_at(rt: HostRuntime) -> Result<(), Fail> {
        let message = read_body::<ContentIds>(&[
            0xc0, 0x43, 1, 0, 0, 0, 1, 0x03, 0xe7, 7, 0x01, 0x02, 0x00, 0x14, 0x01,
        ])?;
        let content = Content {
            id_type: 3,
            valid_until: Some(ALMOST_TWO),
            id: &[7],
        };
        let channel = Channel {
            bsid: 0x0102,
            major: 5,
            minor: 1,
        };
        assert_eq!(rt;
            message,
            ContentId {
                content: Some(content),
                channel: Some(channel),
            }
        );
        Ok(())
    }

    #[test]
    fn content_id_bodies_are_refused_at_their_wrong_place(rt: HostRuntime) {
        // empty; neither part; type or length lack; EIDR of 11; Ad-ID of 13; 1,000 milliseconds
        assert_eq!(rt; read_refused(&[]), Some((9, 0)));
        assert_eq!(rt; read_refused(&[0x3f, 1]), Some((9, 0)));
        assert_eq!(rt; read_refused(&[0xbf, 0x81]), Some((9, 2)));
        assert_eq!(rt; read_refused(&[0xbf, 0x81, 11, 0]), Some((9, 2)));
        assert_eq!(rt; read_refused(&[0xbf, 0x82, 13, b'-']), Some((9, 2)));
        assert_eq!(rt;
            read_refused(&[0xbf, 0xc3, 1, 0, 0, 0, 0, 0xff, 0xe8]),
            Some((9, 7))
        );
        // valid-until lacks a byte; a wrong character before a lacking byte; the identifier lacks; the channel lacks; a byte more
        assert_eq!(rt;
            read_refused(&[0xbf, 0xc3, 1, 0, 0, 0, 0, 0xff]),
            Some((9, 8))
        );
        assert_eq!(rt; read_refused(&[0xbf, 0x82, 11, b'A', b'-']), Some((9, 4)));
        assert_eq!(rt; read_refused(&[0xbf, 0x82, 11, b'A', b'B']), Some((9, 5)));
        assert_eq!(rt; read_refused(&[0x7f, 1, 2, 0xf0, 0x14]), Some((9, 5)));
        assert_eq!(rt; read_refused(&[0xbf, 0x83, 1, 7, 7, 7]), Some((9, 4)));
    }

    #[test]
    fn presentation_times_are_refused_at_their_wrong_place(rt: HostRuntime) {
        assert_eq!(rt; refused(read_body::<PresentationTimes>(&[])), Some((9, 0)));
        assert_eq!(rt;
            refused(read_body::<PresentationTimes>(&[0, 0, 0, 1, 0xff])),
            Some((9, 5))
        );
        assert_eq!(rt;
            refused(read_body::<PresentationTimes>(&[0, 0, 0, 1, 0xff, 0xe8])),
            Some((9, 4))
        );
        assert_eq!(rt;
            refused(read_body::<PresentationTimes>(&[0, 0, 0, 1, 0xff, 0xe8, 0])),
            Some((9, 4))
        );
        assert_eq!(rt;
            refused(read_body::<PresentationTimes>(&[0, 0, 0, 1, 0xff, 0xe7, 0])),
            Some((9, 6))
        );
    }

    #[test]
    fn messages_are_refused_at_their_wrong_place(rt: HostRuntime) {
        let late = Time {
            seconds: 1,
            milliseconds: 1000,
        };
        assert_eq!(rt;
            write_refused(&ContentId {
                content: None,
                channel: None,
            },),
            Some((9, 0))
        );
        assert_eq!(rt; write_refused(&content(64, None, b"any")), Some((9, 1)));
        assert_eq!(rt; write_refused(&content(3, None, &[0; 256])), Some((9, 2)));
        assert_eq!(rt;
            write_refused(&content(1, None, b"ELEVENBYTES")),
            Some((9, 2))
        );
        assert_eq!(rt;
            write_refused(&content(3, Some(late), b"any")),
            Some((9, 7))
        );
        assert_eq!(rt;
            write_refused(&content(2, None, b"ABCD-123456")),
            Some((9, 7))
        );
        assert_eq!(rt; write_refused(&channel(1, 1024, 1)), Some((9, 3)));
        assert_eq!(rt; write_refused(&channel(1, 5, 1024)), Some((9, 4)));
    }

    #[test]
    fn a_short_output_comes_first_and_stays(rt: HostRuntime) {
        let mut out = [0xaau8; 5];
        let late = Time {
            seconds: 1,
            milliseconds: 1000,
        };
        let answer = write_body::<PresentationTimes>(&late, &mut out);
        assert_eq!(rt; refused(answer), Some((4, 5)));
        assert_eq!(rt; out, [0xaa; 5]);
    }

    #[test]
    fn a_number_has_one_kind(rt: HostRuntime) -> Result<(), Fail> {
        assert_eq!(rt; kind_of(0), None);
        assert_eq!(rt; kind_of(1), Some(KindName::ContentId));
        assert_eq!(rt; kind_of(2), Some(KindName::PresentationTime));
        assert_eq!(rt; kind_of(3), Some(KindName::Plain));
        assert_eq!(rt; kind_of(255), Some(KindName::Plain));
        assert!(rt; PlainBytes::takes(3) && !PlainBytes::takes(2));
        let bytes = read_body::<PlainBytes>(&[1, 2, 3])?;
        assert!(rt; bytes == [1, 2, 3].as_slice());
        Ok(())
    }
}

// Tests of frames on octets that were computed outside, and at the edges of every refusal.
#![tactic(auto)]

#[cfg(test)]
mod tests {
    use frames::{Burst, FrameRefusal, Kind, Parts, Way, read, strike, write};
    use std::test::Fail;

    // An I frame of these numbers and this information.
    fn block(ns: u8, nr: u8, b: u8, info: &[u8]) -> Parts<'_> {
        Parts {
            kind: Kind::I,
            ns,
            nr,
            b,
            info,
        }
    }

    // A status of this N(R) and this B.
    fn status(kind: Kind, nr: u8, b: u8) -> Parts<'static> {
        Parts {
            nr,
            b,
            ..Parts::plain(kind)
        }
    }

    // Among them is the UA frame that is published as an HDLC example: 01 73 83 57.
    #[test]
    fn vectors(rt: HostRuntime) -> Result<(), Fail> {
        let frames: [(Way, Parts<'_>, &[u8]); 12] = [
            (
                Way::One,
                block(3, 5, 0, b"\x68\x69"),
                b"\x01\xa6\x68\x69\x39\x6c",
            ),
            (Way::Two, block(0, 7, 1, b""), b"\x01\xf0\x10\xe1"),
            (Way::One, block(7, 0, 0, b"\x00"), b"\x01\x0e\x00\x00\x06"),
            (
                Way::Two,
                block(1, 2, 0, b"\xff\x7e\x7d"),
                b"\x01\x42\xff\x7e\x7d\xb7\xef",
            ),
            (Way::One, status(Kind::Rr, 7, 1), b"\x01\xf1\x99\xf0"),
            (Way::Two, status(Kind::Rr, 0, 0), b"\x01\x01\x16\x07"),
            (Way::One, status(Kind::Rnr, 2, 0), b"\x01\x45\x36\x03"),
            (Way::Two, status(Kind::Rnr, 7, 1), b"\x01\xf5\xbd\xb6"),
            (Way::One, Parts::plain(Kind::Sarm), b"\x01\x1f\xe9\xfe"),
            (Way::One, Parts::plain(Kind::Disc), b"\x01\x53\x81\x76"),
            (Way::Two, Parts::plain(Kind::Ua), b"\x01\x73\x83\x57"),
            (Way::Two, Parts::plain(Kind::Dm), b"\x01\x1f\xe9\xfe"),
        ];
        for (way, frame, octets) in frames {
            let mut out = [0xaa; 70];
            let len = write(way, frame, &mut out)?;
            assert_eq!(rt; len, octets.len());
            assert!(rt; len < 70);
            assert_eq!(rt; &out[..len], octets);
            assert_eq!(rt; out[len], 0xaa);
            assert_eq!(rt; read(way, octets).map(Parts::from), Ok(frame));
        }
        Ok(())
    }

    #[test]
    fn read_refusals(rt: HostRuntime) {
        let strings: [(Way, &[u8], FrameRefusal); 8] = [
            (Way::One, b"\x01\x1f\x00", FrameRefusal::Short),
            (Way::One, b"\x01\x1f\x00\x00", FrameRefusal::Check),
            (Way::One, b"\x03\x1f\x00\x00", FrameRefusal::Check),
            (Way::One, b"\x03\x0f\xd8\xdd", FrameRefusal::Address),
            (Way::One, b"\x01\x0f\x09\x19\x82", FrameRefusal::Control),
            (Way::One, b"\x01\x73\x83\x57", FrameRefusal::Control),
            (Way::Two, b"\x01\x53\x81\x76", FrameRefusal::Control),
            (Way::One, b"\x01\x1f\x00\x49\x8a", FrameRefusal::Stray),
        ];
        for (way, octets, expected) in strings {
            assert_eq!(rt; read(way, octets).err(), Some(expected));
        }
    }

    #[test]
    fn lengths(rt: HostRuntime) {
        let octets = [0; 69];
        assert_eq!(rt;
            read(Way::One, &octets[0..3]).err(),
            Some(FrameRefusal::Short)
        );
        assert_eq!(rt;
            read(Way::One, &octets[0..4]).err(),
            Some(FrameRefusal::Check)
        );
        assert_eq!(rt;
            read(Way::One, &octets[0..68]).err(),
            Some(FrameRefusal::Check)
        );
        assert_eq!(rt; read(Way::One, &octets).err(), Some(FrameRefusal::Long));
    }

    // A frame whose kind has no information, and yet has one octet of it.
    fn stray(kind: Kind) -> Parts<'static> {
        Parts {
            info: &[0],
            ..Parts::plain(kind)
        }
    }

    // A refusal leaves every octet.
    #[test]
    fn write_refusals(rt: HostRuntime) {
        let numbered = Parts {
            kind: Kind::Ua,
            ns: 9,
            nr: 9,
            b: 9,
            info: &[0; 65],
        };
        let frames = [
            (numbered, FrameRefusal::Long),
            (stray(Kind::Ua), FrameRefusal::Control),
            (block(8, 0, 0, &[]), FrameRefusal::Control),
            (stray(Kind::Sarm), FrameRefusal::Stray),
            (Parts::plain(Kind::Sarm), FrameRefusal::NoSpace),
        ];
        let mut out = [0xaa; 3];
        for (frame, expected) in frames {
            assert_eq!(rt; write(Way::One, frame, &mut out), Err(expected));
        }
        assert_eq!(rt; out, [0xaa; 3]);
    }

    // The longest information, the least room and the largest numbers are granted; one more, or one octet less, is refused.
    #[test]
    fn write_edges(rt: HostRuntime) {
        let info = [0x55; 65];
        let mut out = [0xaa; 68];
        assert_eq!(rt;
            write(Way::One, block(7, 7, 1, &info), &mut out),
            Err(FrameRefusal::Long)
        );
        assert_eq!(rt;
            write(Way::One, block(7, 7, 1, &info[0..64]), &mut out[0..67]),
            Err(FrameRefusal::NoSpace)
        );
        assert_eq!(rt; out, [0xaa; 68]);
        assert_eq!(rt;
            write(Way::One, block(7, 7, 1, &info[0..64]), &mut out),
            Ok(68)
        );
        assert_eq!(rt;
            read(Way::One, &out).map(Parts::from),
            Ok(block(7, 7, 1, &info[0..64]))
        );
        assert_eq!(rt;
            write(Way::One, block(0, 8, 0, &[]), &mut out),
            Err(FrameRefusal::Control)
        );
        assert_eq!(rt;
            write(Way::One, block(0, 0, 2, &[]), &mut out),
            Err(FrameRefusal::Control)
        );
    }

    #[test]
    fn strikes(rt: HostRuntime) {
        let mut octets = [0x01, 0x73, 0x83, 0x57];
        assert!(rt; !strike(&mut octets, Burst { start: 0, mask: 0 }));
        assert!(rt; !strike(&mut octets, Burst { start: 17, mask: 1 }));
        assert_eq!(rt; octets, [0x01, 0x73, 0x83, 0x57]);
        assert!(rt;
            strike(
                &mut octets,
                Burst {
                    start: 16,
                    mask: 0x8001
                }
            )
        );
        assert_eq!(rt; octets, [0x01, 0x73, 0x82, 0xd7]);
        assert_eq!(rt; read(Way::Two, &octets).err(), Some(FrameRefusal::Check));
    }
}

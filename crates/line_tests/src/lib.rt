// Tests of both lines by the same functions, and of what their memory holds.
#![tactic(auto)]

#[cfg(test)]
mod equal;
#[cfg(test)]
mod rings;

#[cfg(test)]
mod tests {
    use crate::equal::same;
    use frames::{Burst, FrameRefusal, Kind, Parts, Way};
    use lines::{Blank, Line, LineRefusal, OctetLine, Record, Ring, RingFull, TableLine};
    use std::process::Abort;
    use std::test::Fail;

    // An I frame with this N(S) and this information.
    fn block(ns: u8, info: &[u8]) -> Parts<'_> {
        Parts {
            ns,
            info,
            ..Parts::plain(Kind::I)
        }
    }

    fn burst(start: usize, mask: u16) -> Burst {
        Burst { start, mask }
    }

    // The oldest frame of a way is this one; it is taken.
    fn takes<L: Line>(
        rt: &impl Abort,
        line: &mut L,
        way: Way,
        expected: Parts<'_>,
    ) -> Result<(), Fail> {
        let frame = line.take(way)?;
        assert_eq!(rt; Parts::from(&frame), expected);
        Ok(())
    }

    // Frames come out in the order they were put, each on its own way.
    fn in_order<L: Line>(rt: &impl Abort, line: &mut L) -> Result<(), Fail> {
        same(rt, line.put(Way::One, block(0, &[10])), Ok(()));
        same(rt, line.put(Way::One, block(1, &[11])), Ok(()));
        same(rt, line.put(Way::Two, Parts::plain(Kind::Ua)), Ok(()));
        same(rt, line.count(Way::One), 2);
        same(rt, line.count(Way::Two), 1);
        takes(rt, line, Way::One, block(0, &[10]))?;
        takes(rt, line, Way::One, block(1, &[11]))?;
        takes(rt, line, Way::Two, Parts::plain(Kind::Ua))?;
        same(rt, line.take(Way::One).err(), Some(LineRefusal::Idle));
        same(rt, line.take(Way::Two).err(), Some(LineRefusal::Idle));
        Ok(())
    }

    // A ninth frame is refused where K is 8, what writing refuses is refused first, and the other way has room.
    fn full<L: Line>(rt: &impl Abort, line: &mut L) -> Result<(), Fail> {
        for i in 0..8 {
            same(rt, line.put(Way::One, block(0, &[i])), Ok(()));
        }
        same(
            rt,
            line.put(Way::One, block(0, &[8])),
            Err(LineRefusal::Full),
        );
        let ua = Parts::plain(Kind::Ua);
        same(
            rt,
            line.put(Way::One, ua),
            Err(LineRefusal::Frame(FrameRefusal::Control)),
        );
        let stray = Parts {
            info: &[1],
            ..Parts::plain(Kind::Rr)
        };
        same(
            rt,
            line.put(Way::One, stray),
            Err(LineRefusal::Frame(FrameRefusal::Stray)),
        );
        let long = block(0, &[0; 65]);
        same(
            rt,
            line.put(Way::One, long),
            Err(LineRefusal::Frame(FrameRefusal::Long)),
        );
        same(rt, line.count(Way::One), 8);
        let longest = Parts {
            kind: Kind::I,
            ns: 7,
            nr: 7,
            b: 1,
            info: &[9; 64],
        };
        same(rt, line.put(Way::Two, longest), Ok(()));
        takes(rt, line, Way::Two, longest)
    }

    // The refusals of a strike in their order, and what a struck entry then gives.
    fn struck<L: Line>(rt: &impl Abort, line: &mut L) -> Result<(), Fail> {
        same(
            rt,
            line.strike(Way::One, 0, burst(17, 0)),
            Err(LineRefusal::NoEntry),
        );
        same(rt, line.put(Way::One, Parts::plain(Kind::Sarm)), Ok(()));
        same(rt, line.put(Way::One, block(3, &[33])), Ok(()));
        same(
            rt,
            line.strike(Way::One, 2, burst(0, 1)),
            Err(LineRefusal::NoEntry),
        );
        same(
            rt,
            line.strike(Way::One, usize::MAX, burst(0, 1)),
            Err(LineRefusal::NoEntry),
        );
        same(
            rt,
            line.strike(Way::One, 0, burst(17, 0)),
            Err(LineRefusal::NoMask),
        );
        same(
            rt,
            line.strike(Way::One, 0, burst(17, 1)),
            Err(LineRefusal::OffFrame),
        );
        same(
            rt,
            line.strike(Way::One, 0, burst(usize::MAX, 1)),
            Err(LineRefusal::OffFrame),
        );
        same(rt, line.strike(Way::One, 0, burst(16, 0x8000)), Ok(()));
        same(
            rt,
            line.strike(Way::One, 0, burst(17, 0)),
            Err(LineRefusal::Struck),
        );
        same(rt, line.count(Way::One), 2);
        same(rt, line.take(Way::One).err(), Some(LineRefusal::Damaged));
        same(
            rt,
            line.strike(Way::One, 0, burst(25, 1)),
            Err(LineRefusal::OffFrame),
        );
        takes(rt, line, Way::One, block(3, &[33]))
    }

    // At D = 2 an entry stands for two ticks, struck or not, and a younger one stands longer.
    fn ageing<L: Line>(rt: &impl Abort, line: &mut L) -> Result<(), Fail> {
        same(rt, line.put(Way::One, block(0, &[1])), Ok(()));
        same(rt, line.put(Way::Two, Parts::plain(Kind::Dm)), Ok(()));
        same(rt, line.strike(Way::Two, 0, burst(3, 0x0101)), Ok(()));
        line.tick();
        same(rt, line.put(Way::One, block(1, &[2])), Ok(()));
        line.tick();
        same(rt, line.count(Way::One), 2);
        same(rt, line.count(Way::Two), 1);
        line.tick();
        same(rt, line.count(Way::One), 1);
        same(rt, line.count(Way::Two), 0);
        takes(rt, line, Way::One, block(1, &[2]))
    }

    // The line goes round its memory many times.
    fn round<L: Line>(rt: &impl Abort, line: &mut L) -> Result<(), Fail> {
        for i in 0..30 {
            same(rt, line.put(Way::Two, block(i % 8, &[i])), Ok(()));
            same(rt, line.put(Way::Two, block(i % 8, &[i])), Ok(()));
            line.tick();
            takes(rt, line, Way::Two, block(i % 8, &[i]))?;
            takes(rt, line, Way::Two, block(i % 8, &[i]))?;
        }
        same(rt, line.count(Way::Two), 0);
        Ok(())
    }

    // A line that was refused holds nothing and takes nothing in.
    fn dead<L: Line>(rt: &impl Abort, line: &mut L) {
        same(rt, line.capacity(), 0);
        same(rt, line.lifetime(), 1);
        same(
            rt,
            line.put(Way::One, block(0, &[1])),
            Err(LineRefusal::Full),
        );
        same(rt, line.take(Way::One).err(), Some(LineRefusal::Idle));
        line.tick();
        same(
            rt,
            line.strike(Way::Two, 0, burst(0, 1)),
            Err(LineRefusal::NoEntry),
        );
        same(rt, line.count(Way::Two), 0);
    }

    fn all<L: Line>(rt: &impl Abort, line: &mut L) -> Result<(), Fail> {
        same(rt, line.capacity(), 8);
        same(rt, line.lifetime(), 2);
        in_order(rt, line)?;
        struck(rt, line)?;
        ageing(rt, line)?;
        round(rt, line)?;
        full(rt, line)
    }

    #[test]
    fn table(rt: HostRuntime) -> Result<(), Fail> {
        let mut one: [Record; 9] = [Record::blank(); 9];
        let mut two: [Record; 8] = [Record::blank(); 8];
        one[8].age = 77;
        let mut line = TableLine::make(8, 2, &mut one, &mut two);
        all(&rt, &mut line)?;
        assert_eq!(rt; one[8].age, 77);
        Ok(())
    }

    #[test]
    fn octets(rt: HostRuntime) -> Result<(), Fail> {
        let mut one = [7; 581];
        let mut two = [7; 576];
        let mut line = OctetLine::make(8, 2, &mut one, &mut two);
        all(&rt, &mut line)?;
        assert_eq!(rt; &one[576..581], &[7; 5][..]);
        Ok(())
    }

    // What way 2 holds after a put and a strike, octet by octet: length, age, the frame, zeros.
    #[test]
    fn layout(rt: HostRuntime) {
        let mut one = [7; 576];
        let mut two = [7; 576];
        let mut line = OctetLine::make(8, 1000, &mut one, &mut two);
        assert_eq!(rt; line.put(Way::Two, Parts::plain(Kind::Ua)), Ok(()));
        for _ in 0..300 {
            line.tick();
        }
        assert_eq!(rt; line.strike(Way::Two, 0, burst(12, 0x0001)), Ok(()));
        let record = [4, 44, 1, 0x01, 0x63, 0x83, 0x57, 0];
        let at = 300 % 8 * 72;
        assert_eq!(rt; &two[at..at + 8], &record[..]);
        assert_eq!(rt; one[0], 0);
    }

    #[test]
    fn refused(rt: HostRuntime) {
        let mut one = [7; 576];
        let mut two = [7; 575];
        assert_eq!(rt; OctetLine::check(8, 2, 576, 576), Ok(()));
        assert_eq!(rt; OctetLine::check(8, 2, 576, 575), Err(LineRefusal::Measure));
        let mut line = OctetLine::make(8, 2, &mut one, &mut two);
        dead(&rt, &mut line);
        assert_eq!(rt; one, [7; 576]);
        let mut first: [Record; 8] = [Record::blank(); 8];
        let mut second: [Record; 8] = [Record::blank(); 8];
        first[0].age = 9;
        let mut line = TableLine::make(8, 1001, &mut first, &mut second);
        dead(&rt, &mut line);
        assert_eq!(rt; first[0].age, 9);
    }

    #[test]
    fn measures(rt: HostRuntime) {
        let no = Err(LineRefusal::Measure);
        assert_eq!(rt; TableLine::check(8, 1, 8, 8), Ok(()));
        assert_eq!(rt; TableLine::check(64, 1000, 64, 70), Ok(()));
        assert_eq!(rt; TableLine::check(7, 1, 8, 8), no);
        assert_eq!(rt; TableLine::check(65, 1, 99, 99), no);
        assert_eq!(rt; TableLine::check(8, 0, 8, 8), no);
        assert_eq!(rt; TableLine::check(8, 1001, 8, 8), no);
        assert_eq!(rt; TableLine::check(9, 1, 9, 8), no);
        assert_eq!(rt; TableLine::check(9, 1, 8, 9), no);
    }

    // A ring round its end: runs are added, read, written over and taken out whole or not at all.
    #[test]
    fn ring(rt: HostRuntime) {
        let mut memory = [9; 7];
        let mut ring = Ring::make(&mut memory, 5);
        same(&rt, ring.size(), 5);
        same(&rt, ring.push_all(&[1, 2, 3, 4]), Ok(()));
        same(&rt, ring.push_all(&[5, 6]), Err(RingFull));
        ring.shed(3);
        same(&rt, ring.push_all(&[5, 6, 7, 8]), Ok(()));
        same(&rt, ring.push(9), Err(RingFull));
        let mut out = [0; 3];
        assert!(rt; ring.peek(1, &mut out));
        same(&rt, out, [5, 6, 7]);
        assert!(rt; !ring.peek(3, &mut out));
        assert!(rt; ring.poke(2, &[60, 70]));
        assert!(rt; !ring.poke(4, &[80, 90]));
        ring.replace(4, 88);
        same(&rt, ring.get(3), Some(70));
        same(&rt, ring.pop(), Some(4));
        same(&rt, ring.pop(), Some(5));
        same(&rt, ring.len(), 3);
        assert!(rt; memory[0] == 60 && memory[3] == 0 && memory[4] == 0);
        assert_eq!(rt; &memory[5..7], &[9, 9][..]);
    }

    #[test]
    fn words(rt: HostRuntime) {
        assert_eq!(rt; LineRefusal::Full.number(), 8);
        assert_eq!(rt; LineRefusal::OffFrame.word(), "off frame");
        assert_eq!(rt; LineRefusal::Frame(FrameRefusal::Stray).number(), 6);
    }
}

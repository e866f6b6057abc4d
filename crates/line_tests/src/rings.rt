// A ring of octets, call by call.
use crate::equal::same;
use lines::{Ring, RingFull};

// Two octets from a place on, none where the ring does not hold both.
fn pair(ring: &Ring<'_, u8>, from: usize) -> Option<[u8; 2]> {
    let mut out = [0; 2];
    ring.peek(from, &mut out).then_some(out)
}

// Round the end of five slots; runs are added, read, written over and taken out whole or not at all. Slots that hold nothing
// are zero, and the memory behind the slots is as it was.
#[test]
fn ring_by_a_table(rt: HostRuntime) {
    let mut memory = [9; 7];
    let mut ring = Ring::make(&mut memory, 5);
    same(&rt, ring.size(), 5);
    same(&rt, ring.push_all(&[1, 2]), Ok(()));
    same(&rt, ring.push_all(&[3, 4]), Ok(()));
    same(&rt, ring.push_all(&[5, 6]), Err(RingFull));
    ring.shed(3);
    same(&rt, ring.push_all(&[5, 6]), Ok(()));
    same(&rt, ring.push_all(&[7, 8]), Ok(()));
    same(&rt, ring.push(9), Err(RingFull));
    same(&rt, pair(&ring, 1), Some([5, 6]));
    same(&rt, pair(&ring, 3), Some([7, 8]));
    same(&rt, pair(&ring, 4), None);
    assert!(rt; ring.poke(2, &[60, 70]));
    assert!(rt; !ring.poke(4, &[80, 90]));
    ring.replace(4, 88);
    ring.replace(5, 99);
    same(&rt, ring.get(3), Some(70));
    same(&rt, ring.get(5), None);
    same(&rt, ring.pop(), Some(4));
    same(&rt, ring.pop(), Some(5));
    same(&rt, ring.len(), 3);
    same(&rt, ring.push(11), Ok(()));
    ring.shed(2);
    same(&rt, ring.len(), 2);
    same(&rt, ring.get(1), Some(11));
    assert_eq!(rt; memory, [0, 0, 88, 11, 0, 9, 9]);
}

#[test]
fn ring_without_room(rt: HostRuntime) {
    let mut memory = [9; 7];
    let ring = Ring::make(&mut memory, 8);
    assert_eq!(rt; ring.size(), 0);
}

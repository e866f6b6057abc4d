// Lines and their replies: where nothing stands, where a line stands, where a link stands.
use crate::answer::{Turn, told, turn_of};
use crate::line_answer::line_answer;
use crate::link_answer::link_answer;
use crate::serve::nothing_answer;
use lines::{Blank, Record, TableLine};
use link::Link;
use std::alloc::Global;
use std::process::Abort;
use std::test::Fail;

const OCTETS: &'static str =
    "!error: octets must be an even number of hexadecimal digits, or '-' for none\n";

const WAY: &'static str = "!error: the way must be 1 or 2\n";

const END: &'static str = "!error: the end must be primary or secondary\n";

const PLACE: &'static str = "!error: the place must be a decimal number below 2^64\n";

const START: &'static str = "!error: the start must be a decimal number below 2^64\n";

const MASK: &'static str = "!error: the mask must be a decimal number from 0 to 65535\n";

const TOO_MANY: &'static str = "!error: too many words\n";

// What a line came to as text: an error's behind `!`, and `.` for none.
fn text_of(heap: Global, turn: Turn) -> Result<String, Fail> {
    match turn {
        Turn::Silent => Ok(String::from_str(heap, ".")?),
        Turn::Answer(text) => Ok(text),
        Turn::Error(text) => Ok(format!(in heap; "!{text}")?),
        Turn::Stand(_) => Ok(String::from_str(heap, "stands")?),
        Turn::Other => Ok(String::from_str(heap, "other")?),
    }
}

// The same where nothing stands.
fn told_alone(heap: Global, line: &[u8]) -> Result<String, Fail> {
    match turn_of(heap, line)? {
        Turn::Other => text_of(heap, told(heap, nothing_answer(heap, line))?),
        turn => text_of(heap, turn),
    }
}

// Whether each line has its reply, where `answer` answers them.
fn expect_all<F>(
    rt: &(impl Abort + AllocGlobal),
    lines: &[(&[u8], &str)],
    mut answer: F,
) -> Result<(), Fail>
where
    F: FnMut(Global, &[u8]) -> Result<String, Fail>,
    requires { F.IsAlwaysCallable answer }
{
    for (line, reply) in lines {
        let text = answer(rt.alloc(), line)?;
        assert_eq!(rt; text.as_str(), *reply);
    }
    Ok(())
}

#[test]
fn no_reply(rt: HostRuntime) -> Result<(), Fail> {
    let lines: [&[u8]; 6] = [
        b"",
        b"\n",
        b" \t\x0b\x0c\r\n",
        b"#",
        b"  # read 3",
        b"#read\xff\n",
    ];
    for line in lines {
        let text = told_alone(rt.alloc(), line)?;
        assert_eq!(rt; text.as_str(), ".");
    }
    Ok(())
}

#[test]
fn nothing_stands(rt: HostRuntime) -> Result<(), Fail> {
    let lines: [(&[u8], &str); 40] = [
        (b"\tread\x0b2\x0c\r01738357 \r\n", "frame UA\n"),
        (b"read 1 -", "refused 1 short\n"),
        (b"write 1 I 0 0 0 -\n", "octets 01009f16\n"),
        (b"line table 18446744073709551615 0", "stands"),
        (b"link octet 008 2 5\n", "stands"),
        (b"reads 1 -", "!error: no such command\n"),
        (b"READ 1 -", "!error: no such command\n"),
        (b"\xff\x00", "!error: no such command\n"),
        (b"read", WAY),
        (b"read 01 -", WAY),
        (b"read 1", OCTETS),
        (b"read 1 0", OCTETS),
        (b"read 1 0g", OCTETS),
        (b"read 1 --", OCTETS),
        (b"read 1 0x00", OCTETS),
        (b"read 1 - -", TOO_MANY),
        (
            b"write 1 i 0 0 0 -",
            "!error: the kind must be I, RR, RNR, SARM, DISC, UA or DM\n",
        ),
        (
            b"write 1 I +1 0 0 -",
            "!error: N(S) must be a decimal number from 0 to 255\n",
        ),
        (
            b"write 1 I 0 256 0 -",
            "!error: N(R) must be a decimal number from 0 to 255\n",
        ),
        (
            b"write 1 I 0 255 1a -",
            "!error: B must be a decimal number from 0 to 255\n",
        ),
        (b"write 1 I 0 0 0 - # no comment", TOO_MANY),
        (b"line", "!error: the line must be table or octet\n"),
        (
            b"link tables 8 2 5",
            "!error: the line must be table or octet\n",
        ),
        (
            b"line table 18446744073709551616 2",
            "!error: K must be a decimal number below 2^64\n",
        ),
        (
            b"link octet -8 2 5",
            "!error: K must be a decimal number below 2^64\n",
        ),
        (
            b"line octet 8",
            "!error: D must be a decimal number below 2^64\n",
        ),
        (
            b"link table 8 2",
            "!error: T must be a decimal number below 2^64\n",
        ),
        (b"line table 8 2 5", TOO_MANY),
        (b"link table 8 2 5 5", TOO_MANY),
        (b"put", "!error: no line stands\n"),
        (b"count 1", "!error: no line stands\n"),
        (b"open", "!error: no link stands\n"),
        (b"close", "!error: no link stands\n"),
        (b"poll", "!error: no link stands\n"),
        (b"send primary -", "!error: no link stands\n"),
        (b"fetch primary", "!error: no link stands\n"),
        (b"ask", "!error: no link stands\n"),
        (b"take 1", "!error: no line or link stands\n"),
        (b"strike 1 0 0 1", "!error: no line or link stands\n"),
        (b"tick", "!error: no line or link stands\n"),
    ];
    expect_all(&rt, &lines, told_alone)
}

#[test]
fn line_stands(rt: HostRuntime) -> Result<(), Fail> {
    let lines: [(&[u8], &str); 22] = [
        (b"put 1 I 3 5 0 6869", "ok\n"),
        (b"put 3 I 0 0 0 -", WAY),
        (b"put 1 I 0 0 0", OCTETS),
        (b"put 1 I 0 0 0 - -", TOO_MANY),
        (b"take", WAY),
        (b"take primary", WAY),
        (b"take 1 1", TOO_MANY),
        (b"strike", WAY),
        (b"strike 1", PLACE),
        (b"strike 1 0", START),
        (b"strike 1 0 18446744073709551616 1", START),
        (b"strike 1 0 0 65536", MASK),
        (b"strike 1 0 0 0x1", MASK),
        (b"strike 1 0 0 1 1", TOO_MANY),
        (b"tick 1", TOO_MANY),
        (b"count", WAY),
        (b"count 1 1", TOO_MANY),
        (b"open", "!error: no link stands\n"),
        (b"ask", "!error: no link stands\n"),
        (b"putt", "!error: no such command\n"),
        (b"count 1", "count=1\n"),
        (b"take 1", "frame I ns=3 nr=5 b=0 info=6869\n"),
    ];
    let mut one = [Record::blank(); 8];
    let mut two = [Record::blank(); 8];
    let mut line = TableLine::make(8, 2, &mut one, &mut two);
    expect_all(&rt, &lines, |heap, text| {
        text_of(heap, told(heap, line_answer(heap, text, &mut line))?)
    })
}

#[test]
fn link_stands(rt: HostRuntime) -> Result<(), Fail> {
    let lines: [(&[u8], &str); 17] = [
        (b"open", "ok put=1 lost=0\n"),
        (b"open now", TOO_MANY),
        (b"close 1", TOO_MANY),
        (b"poll 1", TOO_MANY),
        (b"tick 1", TOO_MANY),
        (b"ask now", TOO_MANY),
        (b"send", END),
        (b"send primary", OCTETS),
        (b"send primary - -", TOO_MANY),
        (b"fetch 1", END),
        (b"fetch primary 1", TOO_MANY),
        (b"take 1", END),
        (b"take Primary", END),
        (b"strike 1 0 0 65536", MASK),
        (b"put 1 I 0 0 0 -", "!error: no line stands\n"),
        (b"count 1", "!error: no line stands\n"),
        (b"opens", "!error: no such command\n"),
    ];
    let mut one = [Record::blank(); 8];
    let mut two = [Record::blank(); 8];
    let line = TableLine::make(8, 2, &mut one, &mut two);
    let mut link = Link::make(line, 5);
    expect_all(&rt, &lines, |heap, text| {
        text_of(heap, told(heap, link_answer(heap, text, &mut link))?)
    })
}

// A drain is refused until the primary is open. The first of seven blocks is struck and none is taken in; the drain has
// all seven sent again, taken in and acknowledged, and tells the primary that the far queue is full.
#[test]
fn drains(rt: HostRuntime) -> Result<(), Fail> {
    let nothing = told_alone(rt.alloc(), b"drain")?;
    assert_eq!(rt; nothing.as_str(), "!error: no link stands\n");
    let lines: [(&[u8], &str); 25] = [
        (b"drain now", TOO_MANY),
        (b"drain", "refused 18 mode\n"),
        (b"open", "ok put=1 lost=0\n"),
        (b"drain", "refused 18 mode\n"),
        (
            b"take secondary",
            "ok put=1 lost=0 acknowledged=0 taken=no passed=no\n",
        ),
        (
            b"take primary",
            "ok put=0 lost=0 acknowledged=0 taken=no passed=no\n",
        ),
        (b"send primary 6f6e65", "ok put=1 lost=0\n"),
        (b"send primary 74776f", "ok put=1 lost=0\n"),
        (b"send primary -", "ok put=1 lost=0\n"),
        (b"send primary 04", "ok put=1 lost=0\n"),
        (b"send primary 05", "ok put=1 lost=0\n"),
        (b"send primary 06", "ok put=1 lost=0\n"),
        (b"send primary 07", "ok put=1 lost=0\n"),
        (b"strike 1 0 0 1", "ok put=0 lost=0\n"),
        (b"take secondary", "refused 10 damaged\n"),
        (
            b"take secondary",
            "ok put=0 lost=0 acknowledged=0 taken=no passed=no\n",
        ),
        (
            b"take secondary",
            "ok put=0 lost=0 acknowledged=0 taken=no passed=no\n",
        ),
        (
            b"take secondary",
            "ok put=0 lost=0 acknowledged=0 taken=no passed=no\n",
        ),
        (
            b"take secondary",
            "ok put=0 lost=0 acknowledged=0 taken=no passed=no\n",
        ),
        (
            b"take secondary",
            "ok put=0 lost=0 acknowledged=0 taken=no passed=no\n",
        ),
        (
            b"take secondary",
            "ok put=0 lost=0 acknowledged=0 taken=no passed=no\n",
        ),
        (b"drain", "ok put=11 lost=0 ticks=0 takes=11 settled=yes\n"),
        (b"send primary 2a", "refused 21 far busy\n"),
        (
            b"fetch secondary",
            "ok put=0 lost=0 length=3 block=6f6e65\n",
        ),
        (b"drain", "ok put=4 lost=0 ticks=0 takes=4 settled=yes\n"),
    ];
    let mut one = [Record::blank(); 8];
    let mut two = [Record::blank(); 8];
    let line = TableLine::make(8, 2, &mut one, &mut two);
    let mut link = Link::make(line, 5);
    expect_all(&rt, &lines, |heap, text| {
        text_of(heap, told(heap, link_answer(heap, text, &mut link))?)
    })
}

// Compares editions for the comparison with the judge. Each frame (`frame::read_task`) has an operation (w for `compare_within`, else `compare`) and eight
// numbers of two bytes: the limits of bytes, nesting and sections, the line words and the event words to lend (at most 2,048 and 4,096 are), and the lengths
// of the older text, of the bytes of its events and of the newer text; then the older text, its events, the newer text and its events. A word of an event is
// a byte, or 255 and the word in four bytes. A line of numbers for each, as `judge editions` prints it. It stops at the end of input or at a frame that is
// cut short or too large.
#![tactic(auto)]

ghost use Rattle.std.specs.Prelude.{◌≤◌, length};

use editions::{Change, Which};
use frame::Sum;
use print::Out;
use std::io;
use walk::Limits;

// The bytes of the eight numbers.
const HEAD: usize = 16;

// The most words that are lent.
const LINES: usize = 2048;

const EVENTS: usize = 4096;

// What each line word and each event word holds before it is lent.
const LINE: u32 = 7;

const EVENT: u32 = 9;

// The byte before a word in four bytes.
const LONG: u8 = 255;

// A text and its events.
#[derive(Clone, Copy)]
struct Edition<'a> {
    text: &'a [u8],
    events: &'a [u32],
}

// What is lent, and the words of the events that a frame brings.
#[derive(Drop)]
struct Rooms {
    lines: [u32; LINES],
    events: [u32; EVENTS],
    older: [u32; EVENTS],
    newer: [u32; EVENTS],
}

// The number at a place of the head.
fn two(load: &[u8], at: usize) -> usize
    ensures { result ≤ 65535 }
{
    usize::from(frame::two(load, at))
}

// The first word of a list of events, and what is behind it; none where it has none.
fn next_word(load: &[u8]) -> Option<(u32, &[u8])> {
    match load {
        [] => None,
        [LONG, rest @ ..] => Some((frame::four(rest, 0), rest.get(4..).unwrap_or(b""))),
        [byte, rest @ ..] => Some((u32::from(*byte), rest)),
    }
}

// The words of a list of events, as many as there is room for.
fn words_of<'w>(load: &[u8], words: &'w mut [u32]) -> &'w [u32]
    ensures { length result.now ≤ length words.old }
{
    let mut rest = load;
    for n in 0..words.len() {
        let Some((word, behind)) = next_word(rest) else {
            return &words[..n];
        };
        words[n] = word;
        rest = behind;
    }
    words
}

fn number_of(which: Which) -> u64 {
    match which {
        Which::Older => 1,
        Which::Newer => 2,
    }
}

// How many bytes, and their sum.
fn part_out(out: &mut Out<'_, impl Print>, part: &[u8]) {
    out.number(part.len());
    out.number(Sum::new().all(part).value());
}

// The part that changed, and the same as one of the older text and as one of the newer.
fn parts_out(out: &mut Out<'_, impl Print>, older: &[u8], newer: &[u8], c: Change) {
    part_out(out, editions::changed(older, newer, c));
    part_out(out, editions::older_part(older, c));
    part_out(out, editions::newer_part(newer, c));
}

// The answer, and a mark where a lent word is not zero.
fn change_out(out: &mut Out<'_, impl Print>, c: Change, lines: &[u32], events: &[u32]) {
    let which = c.which;
    out.numbers(&[c.number, c.position, number_of(which), c.start, c.end]);
    frame::mark(out, lines.iter().all(|x| *x == 0));
    frame::mark(out, events.iter().all(|x| *x == 0));
}

// The editions compared, with the limits of the head or with the usual ones, in words that hold something else before.
fn compared(
    op: u8,
    load: &[u8],
    older: Edition<'_>,
    newer: Edition<'_>,
    lines: &mut [u32],
    events: &mut [u32],
) -> Change {
    lines.fill(LINE);
    events.fill(EVENT);
    if op != b'w' {
        return editions::compare(
            older.text,
            older.events,
            newer.text,
            newer.events,
            lines,
            events,
        );
    }
    let lim = Limits {
        nesting: two(load, 2),
        sections: two(load, 4),
    };
    editions::compare_within(
        older.text,
        older.events,
        newer.text,
        newer.events,
        lines,
        events,
        u32::from(frame::two(load, 0)),
        lim,
    )
}

// The line of two editions, in the words that the frame lends.
fn review_out(
    out: &mut Out<'_, impl Print>,
    op: u8,
    load: &[u8],
    older: Edition<'_>,
    newer: Edition<'_>,
    lines: &mut [u32; LINES],
    events: &mut [u32; EVENTS],
) {
    let lines = &mut lines[..two(load, 6).min(LINES)];
    let events = &mut events[..two(load, 8).min(EVENTS)];
    let c = compared(op, load, older, newer, lines, events);
    change_out(out, c, lines, events);
    parts_out(out, older.text, newer.text, c);
    out.put(b"\n");
}

// One frame's line.
fn frame_out(out: &mut Out<'_, impl Print>, op: u8, load: &[u8], rooms: &mut Rooms) {
    let a = HEAD + two(load, 10);
    let b = a + two(load, 12);
    let c = b + two(load, 14);
    let older = Edition {
        text: trim::part(load, HEAD, a),
        events: words_of(trim::part(load, a, b), &mut rooms.older),
    };
    let newer = Edition {
        text: trim::part(load, b, c),
        events: words_of(trim::part(load, c, load.len()), &mut rooms.newer),
    };
    review_out(
        out,
        op,
        load,
        older,
        newer,
        &mut rooms.lines,
        &mut rooms.events,
    );
}

fn main(rt: HostRuntime) -> io::Result<()> {
    let mut held = [0u8; 4096];
    let mut out = Out::new(&rt, &mut held);
    let mut load = [0u8; 32768];
    let mut rooms = Rooms {
        lines: [0; LINES],
        events: [0; EVENTS],
        older: [0; EVENTS],
        newer: [0; EVENTS],
    };
    frame::each_task(&rt, &mut load, |op, load| {
        frame_out(&mut out, op, load, &mut rooms);
        Some(())
    });
    out.finish()
}

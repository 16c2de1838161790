// Parses the pages of a stream of frames for the comparison with the Rust, each in the line words and the event words and within
// the limits that its frame has (`frame::read_page`). A line of numbers for each, as `judge words` prints it. It stops at the
// end of input or at a frame that is cut short or too large.
#![tactic(auto)]

use events::WIDTH;
use frame::{EVENTS, LINES, Page};
use parse::Answer;
use print::Out;
use std::io;
use walk::Limits;

// What each line word holds before a page.
const LINE: u32 = 7;

// What each event word holds before a page.
const EVENT: u32 = 9;

// What is lent.
#[derive(Drop)]
struct Rooms {
    lines: [u32; LINES],
    events: [u32; EVENTS],
}

// A mark where a word is not v.
fn hold(out: &mut Out<'_, impl Print>, words: &[u32], v: u32) {
    frame::mark(out, words.iter().all(|x| *x == v));
}

// A mark where a word that must stay as it was before the page is another.
fn kept_out(out: &mut Out<'_, impl Print>, lines: &[u32], events: &[u32]) {
    hold(out, lines, LINE);
    hold(out, events, EVENT);
}

// The events' words; a mark where so many were not lent, and where a line word or a word after the events is not zero.
fn events_out(out: &mut Out<'_, impl Print>, count: u64, lines: &[u32], events: &[u32]) {
    if ((events.len() / WIDTH) as u64) < count {
        return frame::mark(out, false);
    }
    let (used, rest) = events.split_at(count as usize * WIDTH);
    out.numbers(used);
    hold(out, lines, 0);
    hold(out, rest, 0);
}

// The answer's line: the answer, then the events' words; a mark where a word is not as R4 or R17 says.
fn page_out(out: &mut Out<'_, impl Print>, a: Answer, lines: &[u32], events: &[u32]) {
    out.numbers(&[a.number, a.position, a.count, a.looks]);
    match a.number {
        1 | 2 => kept_out(out, lines, events),
        _ => events_out(out, a.count, lines, events),
    }
    out.put(b"\n");
}

// The page of a frame, in the words that the frame lends, which hold something else before.
fn page(out: &mut Out<'_, impl Print>, page: Page<'_>, rooms: &mut Rooms) {
    let lines = &mut rooms.lines[..];
    let lines = &mut lines[..page.lines];
    let events = &mut rooms.events[..];
    let events = &mut events[..page.events];
    lines.fill(LINE);
    events.fill(EVENT);
    let lim = Limits {
        nesting: page.nesting,
        sections: page.sections,
    };
    let a = parse::parse_within(page.text, lines, events, events::LARGEST, lim);
    page_out(out, a, lines, events);
}

fn main(rt: HostRuntime) -> io::Result<()> {
    let mut held = [0u8; 65536];
    let mut out = Out::new(&rt, &mut held);
    let mut text = [0u8; 65536];
    let mut rooms = Rooms {
        lines: [0; LINES],
        events: [0; EVENTS],
    };
    frame::each_page(&rt, &mut text, |read| page(&mut out, read, &mut rooms));
    out.finish()
}

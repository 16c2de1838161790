// Takes texts through parsing, records and back, and listing, for the comparison with the judge: frames as `pages` has them, of
// which the line words, the limits and the text count. A line of numbers for each, as `judge trips` prints it. It stops at the
// end of input or at a frame that is cut short or too large.
#![tactic(auto)]

use events::{STALE, WIDTH};
use frame::{LINES, Page, Sum};
use listing::FULL;
use parse::Answer;
use print::Out;
use std::io;
use walk::Limits;

// The event words and the bytes of a stream and of a listing that are lent.
const WORDS: usize = 16384;

const STREAM: usize = 36864;

const LIST: usize = 131072;

// What is lent.
#[derive(Drop)]
struct Rooms {
    lines: [u32; LINES],
    words: [u32; WORDS],
    stream: [u8; STREAM],
    back: [u32; WORDS],
    list: [u8; LIST],
}

// How many bytes, and their sum; a mark where so many were not lent.
fn bytes_out(out: &mut Out<'_, impl Print>, bytes: &[u8], count: usize) {
    let Some(bytes) = bytes.get(..count) else {
        return frame::mark(out, false);
    };
    out.number(count as u64);
    out.number(Sum::new().all(bytes).value());
}

// Whether `back` has the events of `words` without the Stale ones, and zeros behind them.
fn same_live(words: &[u32], back: &[u32]) -> bool {
    let mut rest = back;
    for event in words.chunks_exact(WIDTH) {
        if matches!(event, [STALE, ..]) {
            continue;
        }
        let Some(behind) = rest.strip_prefix(event) else {
            return false;
        };
        rest = behind;
    }
    rest.iter().all(|x| *x == 0)
}

// The stream of the events, and a mark where it does not read back as the same events.
fn stream_out(out: &mut Out<'_, impl Print>, words: &[u32], stream: &mut [u8], back: &mut [u32]) {
    let written = records::write(words, stream);
    match written {
        Ok(done) => out.numbers(&[0, done.taken as u64]),
        Err(e) => out.numbers(&[u64::from(e.why), e.at]),
    }
    let size = written.map_or(0, |done| done.given);
    bytes_out(out, stream, size);
    if let Some(stream) = stream.get(..size) {
        let read = records::read(stream, back);
        frame::mark(out, read.is_ok() && same_live(words, back));
    }
}

// The full listing, its length and sum.
fn listing_out(out: &mut Out<'_, impl Print>, a: Answer, words: &[u32], list: &mut [u8]) {
    let listed = listing::page(FULL, a.number, a.position, a.looks, words, list);
    bytes_out(out, list, listed.map_or(0, |done| done.given));
    out.put(b"\n");
}

// The records of an accepted text, none of a refused one.
fn records_out(
    out: &mut Out<'_, impl Print>,
    a: Answer,
    words: &[u32],
    stream: &mut [u8],
    back: &mut [u32],
) {
    if a.number != 0 {
        return;
    }
    if ((words.len() / WIDTH) as u64) < a.count {
        return frame::mark(out, false);
    }
    stream_out(out, &words[..a.count as usize * WIDTH], stream, back);
}

// The text of a frame, in the line words that the frame lends and within the limits of the program that lists pages.
fn text_out(out: &mut Out<'_, impl Print>, page: Page<'_>, rooms: &mut Rooms) {
    let lim = Limits {
        nesting: page.nesting,
        sections: page.sections,
    };
    let lines = &mut rooms.lines[..];
    let lines = &mut lines[..page.lines];
    let a = parse::parse_within(page.text, lines, &mut rooms.words, 32768, lim);
    out.numbers(&[a.number, a.position, a.count, a.looks]);
    records_out(out, a, &rooms.words, &mut rooms.stream, &mut rooms.back);
    listing_out(out, a, &rooms.words, &mut rooms.list);
}

fn main(rt: HostRuntime) -> io::Result<()> {
    let mut held = [0u8; 65536];
    let mut out = Out::new(&rt, &mut held);
    let mut text = [0u8; 65536];
    let mut rooms = Rooms {
        lines: [0; LINES],
        words: [0; WORDS],
        stream: [0; STREAM],
        back: [0; WORDS],
        list: [0; LIST],
    };
    frame::each_page(&rt, &mut text, |page| text_out(&mut out, page, &mut rooms));
    out.finish()
}

// The listing: events as lines of text (RULES V4 to V8), without those of blank lines unless it is the full one (V10). All is
// measured before a byte is written, since a refusal leaves all as found.
#![tactic(auto)]

ghost use Rattle.std.specs.Prelude.{◌≡◌, List, ℕ, length};
ghost use Rattle.events.specs.Pack.{all_of};
ghost use Rattle.records.specs.Moved.{told};
ghost use Rattle.listing.specs.Listing.{left_out, line_in, lines_in, list_of, listed_of, page_of, paged_of};
ghost use Rattle.listing.specs.Modes.{mode_num, mode_of};

use events::{ATOM, BLANKLINE, Event, WIDTH};
use nests::refused;
use records::Done;
use refusals::{Refusal, Refused};
use sinks::{Count, Fill, Sink};

// The numbers of the two modes; any other number means short.
pub const SHORT: u64 = 0;

pub const FULL: u64 = 1;

#[derive(Clone, Copy, Debug, PartialEq, Eq)]
enum Mode {
    Short,
    Full,
}

impl From<u64> for Mode {
    ghost from_gives = { λ n m. m ≡ mode_of n };

    fn from(n: u64) -> Mode {
        if n == FULL { Mode::Full } else { Mode::Short }
    }
}

// ---- a line in a mode

// Whether an event has no line: a blank line, unless the listing is the full one.
#[tactic(auto, unfolding(crate::specs::Listing::left_out, crate::specs::Listing::is_blank))]
fn left_out(mode: Mode, x: Event) -> bool
    ensures { result ≡ left_out (mode_num mode) x }
{
    matches!(mode, Mode::Short) && x.role == ATOM && x.node == BLANKLINE
}

// An event's line.
fn put_in<S: Sink>(mode: Mode, sink: &mut S, x: Event)
    requires { S.fits sink.old (length (line_in (mode_num mode) x)) }
    ensures { S.took sink.old (line_in (mode_num mode) x) sink.new }
{
    if !left_out(mode, x) {
        entries::put_line(sink, x);
    }
}

// ---- events

// Whether the lines of all events have room: the first that has none, or how many events and bytes.
fn fit(mode: Mode, words: &[u32], room: usize) -> Result<Done, Refused>
    ensures { told result ≡ list_of (mode_num mode) words.now room }
{
    records::check(words, usize::MAX)?;
    let mut size = 0;
    for (i, x) in events::in_turn(words) {
        let mut line = Count { bytes: 0 };
        put_in(mode, &mut line, x);
        if room - size < line.bytes {
            return Err(refused(Refusal::BytesFull, i));
        }
        size += line.bytes;
    }
    Ok(Done {
        taken: words.len() / WIDTH,
        given: size,
    })
}

// The lines of all events.
fn put_lines<S: Sink>(mode: Mode, sink: &mut S, words: &[u32])
    requires { S.fits sink.old (length (lines_in (mode_num mode) (all_of words.now))) }
    ensures { S.took sink.old (lines_in (mode_num mode) (all_of words.now)) sink.new }
{
    for (_, x) in events::in_turn(words) {
        put_in(mode, sink, x);
    }
}

// Events that the record writer would take, as lines; its refusals 9 to 12, then 8.
pub fn list(mode: u64, words: &[u32], out: &mut [u8]) -> Result<Done, Refused>
    ensures value { told result ≡ list_of mode words.now (length out.old) }
    ensures out_after { out.new ≡ listed_of mode words.now out.old }
{
    let mode = Mode::from(mode);
    let done = fit(mode, words, out.len())?;
    let mut lines = Fill { out, at: 0 };
    put_lines(mode, &mut lines, words);
    Ok(done)
}

// ---- a page

// The line of a refused parse, alone.
fn put_alone(number: u64, position: u64, out: &mut [u8]) -> Result<Done, Refused>
    requires { number ≡ 0 → ⊥ }
    ensures by_index { (mode looks : ℕ) (words : List ℕ) → told result ≡ page_of mode number position looks words (length out.old) }
    ensures by_index_2 { (mode looks : ℕ) (words : List ℕ) → out.new ≡ paged_of mode number position looks words out.old }
{
    let mut size = Count { bytes: 0 };
    entries::put_refused(&mut size, number, position);
    if out.len() < size.bytes {
        return Err(refused(Refusal::BytesFull, 0));
    }
    let mut line = Fill { out, at: 0 };
    entries::put_refused(&mut line, number, position);
    Ok(Done {
        taken: 0,
        given: size.bytes,
    })
}

// All of a parse's listing: its events and looks, or its refusal.
pub fn page(
    mode: u64,
    number: u64,
    position: u64,
    looks: u64,
    words: &[u32],
    out: &mut [u8],
) -> Result<Done, Refused>
    ensures value { told result ≡ page_of mode number position looks words.now (length out.old) }
    ensures out_after { out.new ≡ paged_of mode number position looks words.now out.old }
{
    if number != 0 {
        return put_alone(number, position, out);
    }
    let mode = Mode::from(mode);
    let done = fit(mode, words, out.len())?;
    let mut last = Count { bytes: 0 };
    entries::put_looks(&mut last, looks);
    if out.len() - done.given < last.bytes {
        return Err(refused(Refusal::BytesFull, done.taken));
    }
    let mut page = Fill { out, at: 0 };
    put_lines(mode, &mut page, words);
    entries::put_looks(&mut page, looks);
    Ok(Done {
        taken: done.taken,
        given: page.at,
    })
}

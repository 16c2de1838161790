// The interface for other languages: a slice is a pointer and a length, an answer is filled in. include/tolphaneap.h describes each.
#![tactic(auto)]

ghost use Rattle.std.specs.Prelude.{◌≡◌, length, get_or, replicate};
ghost use Rattle.events.specs.Names.{largest};
ghost use Rattle.parse.specs.Parse.{limits, parse_of};
ghost use Rattle.records.specs.Moved.{told};
ghost use Rattle.records.specs.Records.{write_of, written_of, read_of, unpacked_of};
ghost use Rattle.listing.specs.Listing.{list_of, listed_of, page_of, paged_of};
ghost use Rattle.editions.specs.Editions.{change_of};
ghost use Rattle.tolphaneap.specs.Answers.{answer_words, moved_words, which_num, change_words};

use editions::Which;
use records::Done;
use refusals::Refused;

fn tell(r: Result<Done, Refused>, answer: &mut [u64; 3])
    ensures { answer.new ≡ moved_words (told r) }
{
    *answer = match r {
        Ok(done) => [0, done.taken as u64, done.given as u64],
        Err(refused) => [u64::from(refused.why), refused.at, 0],
    };
}

// Text to events: number, position, count, looks.
pub fn tolphaneap_parse(text: &[u8], lines: &mut [u32], events: &mut [u32], answer: &mut [u64; 4])
    ensures answer_after { answer.new ≡ answer_words (parse_of largest limits text.now lines.old events.old).answer }
    ensures lines_after { lines.new ≡ (parse_of largest limits text.now lines.old events.old).lines }
    ensures events_after { events.new ≡ (parse_of largest limits text.now lines.old events.old).events }
{
    let a = parse::parse(text, lines, events);
    *answer = [a.number, a.position, a.count, a.looks];
}

// Events to a stream of records.
pub fn tolphaneap_write(events: &[u32], bytes: &mut [u8], answer: &mut [u64; 3])
    ensures answer_after { answer.new ≡ moved_words (write_of events.now (length bytes.old)) }
    ensures bytes_after { bytes.new ≡ written_of events.now bytes.old }
{
    tell(records::write(events, bytes), answer);
}

// A stream of records to events.
pub fn tolphaneap_read(bytes: &[u8], events: &mut [u32], answer: &mut [u64; 3])
    ensures answer_after { answer.new ≡ moved_words (read_of bytes.now (length events.old)) }
    ensures events_after { events.new ≡ unpacked_of bytes.now events.old }
{
    tell(records::read(bytes, events), answer);
}

// Events to lines, in a mode.
pub fn tolphaneap_list(mode: u64, events: &[u32], out: &mut [u8], answer: &mut [u64; 3])
    ensures answer_after { answer.new ≡ moved_words (list_of mode events.now (length out.old)) }
    ensures out_after { out.new ≡ listed_of mode events.now out.old }
{
    tell(listing::list(mode, events, out), answer);
}

// What a parse answered, and its events, to lines, in a mode.
pub fn tolphaneap_page(
    mode: u64,
    parsed: &[u64; 4],
    events: &[u32],
    out: &mut [u8],
    answer: &mut [u64; 3],
)
    ensures answer_after { answer.new ≡ moved_words (page_of mode (get_or parsed.now 0 0) (get_or parsed.now 1 0) (get_or parsed.now 3 0) events.now (length out.old)) }
    ensures out_after { out.new ≡ paged_of mode (get_or parsed.now 0 0) (get_or parsed.now 1 0) (get_or parsed.now 3 0) events.now out.old }
{
    tell(
        listing::page(mode, parsed[0], parsed[1], parsed[3], events, out),
        answer,
    );
}

// The number of a text.
fn which_num(w: Which) -> u64
    ensures { result ≡ which_num w }
{
    match w {
        Which::Older => 1,
        Which::Newer => 2,
    }
}

// Two editions of a text, each with its events, to the part that changed: number, position, which text, start, end.
pub fn tolphaneap_changes(
    older: &[u8],
    og: &[u32],
    newer: &[u8],
    ng: &[u32],
    lines: &mut [u32],
    events: &mut [u32],
    answer: &mut [u64; 5],
)
    ensures answer_after { answer.new ≡ change_words (change_of largest limits (length lines.old) (length events.old) older.now og.now newer.now ng.now) }
    ensures lines_after { lines.new ≡ replicate (length lines.old) 0 }
    ensures events_after { events.new ≡ replicate (length events.old) 0 }
{
    let c = editions::compare(older, og, newer, ng, lines, events);
    let which = c.which;
    let text = which_num(which);
    *answer = [c.number, c.position, text, c.start, c.end];
}

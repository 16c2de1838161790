// The exported functions of the interface: the symbols of include/tolphaneap.h, each one the function of tolphaneap with the same clauses.
#![tactic(auto)]

ghost use Rattle.std.specs.Prelude.{◌≡◌, length, get_or, replicate};
ghost use Rattle.events.specs.Names.{largest};
ghost use Rattle.parse.specs.Parse.{limits, parse_of};
ghost use Rattle.records.specs.Records.{write_of, written_of, read_of, unpacked_of};
ghost use Rattle.listing.specs.Listing.{list_of, listed_of, page_of, paged_of};
ghost use Rattle.editions.specs.Editions.{change_of};
ghost use Rattle.tolphaneap.specs.Answers.{answer_words, moved_words, which_num, change_words};

use tolphaneap;

// Text to events: number, position, count, looks.
#[unsafe(no_mangle)]
pub extern "C" fn tolphaneap_parse(
    text: &[u8],
    lines: &mut [u32],
    events: &mut [u32],
    answer: &mut [u64; 4],
)
    ensures answer_after { answer.new ≡ answer_words (parse_of largest limits text.now lines.old events.old).answer }
    ensures lines_after { lines.new ≡ (parse_of largest limits text.now lines.old events.old).lines }
    ensures events_after { events.new ≡ (parse_of largest limits text.now lines.old events.old).events }
{
    tolphaneap::tolphaneap_parse(text, lines, events, answer);
}

// Events to a stream of records.
#[unsafe(no_mangle)]
pub extern "C" fn tolphaneap_write(events: &[u32], bytes: &mut [u8], answer: &mut [u64; 3])
    ensures answer_after { answer.new ≡ moved_words (write_of events.now (length bytes.old)) }
    ensures bytes_after { bytes.new ≡ written_of events.now bytes.old }
{
    tolphaneap::tolphaneap_write(events, bytes, answer);
}

// A stream of records to events.
#[unsafe(no_mangle)]
pub extern "C" fn tolphaneap_read(bytes: &[u8], events: &mut [u32], answer: &mut [u64; 3])
    ensures answer_after { answer.new ≡ moved_words (read_of bytes.now (length events.old)) }
    ensures events_after { events.new ≡ unpacked_of bytes.now events.old }
{
    tolphaneap::tolphaneap_read(bytes, events, answer);
}

// Events to lines, in a mode.
#[unsafe(no_mangle)]
pub extern "C" fn tolphaneap_list(mode: u64, events: &[u32], out: &mut [u8], answer: &mut [u64; 3])
    ensures answer_after { answer.new ≡ moved_words (list_of mode events.now (length out.old)) }
    ensures out_after { out.new ≡ listed_of mode events.now out.old }
{
    tolphaneap::tolphaneap_list(mode, events, out, answer);
}

// What a parse answered, and its events, to lines, in a mode.
#[unsafe(no_mangle)]
pub extern "C" fn tolphaneap_page(
    mode: u64,
    parsed: &[u64; 4],
    events: &[u32],
    out: &mut [u8],
    answer: &mut [u64; 3],
)
    ensures answer_after { answer.new ≡ moved_words (page_of mode (get_or parsed.now 0 0) (get_or parsed.now 1 0) (get_or parsed.now 3 0) events.now (length out.old)) }
    ensures out_after { out.new ≡ paged_of mode (get_or parsed.now 0 0) (get_or parsed.now 1 0) (get_or parsed.now 3 0) events.now out.old }
{
    tolphaneap::tolphaneap_page(mode, parsed, events, out, answer);
}

// Two editions of a text, each with its events, to the part that changed: number, position, which text, start, end.
#[unsafe(no_mangle)]
pub extern "C" fn tolphaneap_changes(
    older: &[u8],
    og: &[u32],
    newer: &[u8],
    ng: &[u32],
    lines: &mut [u32],
    events: &mut [u32],
    answer: &mut [u64; 5],
)
    ensures answer_after { answer.new ≡ change_words (change_of largest limits (length lines.old) (length events.old) older.now og.now newer.now ng.now) }
    ensures lines_after { lines.new ≡ replicate (length lines.old) 0 }
    ensures events_after { events.new ≡ replicate (length events.old) 0 }
{
    tolphaneap::tolphaneap_changes(older, og, newer, ng, lines, events, answer);
}

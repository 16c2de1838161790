// Records: events to a stream of bytes and back. Each is checked whole before a byte or word is written, since a refusal leaves
// all as found (RULES N4, N10 to N14).
#![tactic(auto)]

ghost use Rattle.std.specs.Prelude.{◌≡◌, true, zero, ◌-◌, ◌≤◌, length, drop, replicate, ◌++◌};
ghost use Rattle.events.specs.Pack.{event_in, all_of, pack_of, live_of};
ghost use Rattle.events.specs.Events.{whole_at};
ghost use Rattle.record.specs.Record.{record_in, record_fits};
ghost use Rattle.sinks.specs.Sinks.{fills, has_filled};
ghost use Rattle.nests.specs.Nesting.{outside};
ghost use Rattle.records.specs.Moved.{told};
ghost use Rattle.records.specs.Records.{stream_of, stored_of, write_of, written_of, read_of, take_of, unpacked_of, all_listed, all_whole};

use events::{Event, WIDTH};
use nests::{Nest, Places, refused};
use refusals::{Refusal, Refused};
use sinks::Fill;

// What was taken and what was given for it (N13): a writer's events and bytes, a reader's bytes and events.
#[derive(Clone, Copy, Debug, PartialEq, Eq)]
pub struct Done {
    pub taken: usize,
    pub given: usize,
}

// ---- writing

// Events in words, each by its first word.
#[derive(Clone, Copy)]
struct Words<'a>(&'a [u32]);

impl Places for Words<'_> {
    ghost get = { λ s. event_in s.0.now };

    ghost whole = { λ s. whole_at s.0.now };

    fn event(&self, at: usize) -> Event {
        events::event_at(self.0, at)
    }
}

// Whether events can be written to `lent` bytes: the first refusal, or how many events and bytes.
pub fn check(words: &[u32], lent: usize) -> Result<Done, Refused>
    ensures { told result ≡ write_of words.now lent }
{
    let open = Words(words);
    let mut nest = Nest::new();
    let mut size = 0;
    for (i, x) in events::in_turn(words) {
        if events::is_stale(x) {
            continue;
        }
        nest.fault(&open, x, i)?;
        let more = fields::size_of(x.role, x.node);
        if lent - size < more {
            return Err(refused(Refusal::BytesFull, i));
        }
        nest.follow(x, i * WIDTH);
        size += more;
    }
    let total = words.len() / WIDTH;
    if !nest.done || words.len() % WIDTH != 0 {
        return Err(refused(Refusal::CutShort, total));
    }
    Ok(Done {
        taken: total,
        given: size,
    })
}

// The records of all events but the Stale ones.
fn put_stream(sink: &mut Fill<'_>, words: &[u32])
    requires listed { all_listed (live_of (all_of words.now)) ≡ true }
    requires fits { fills sink.old (length (stream_of (live_of (all_of words.now)))) }
    ensures { has_filled sink.old (stream_of (live_of (all_of words.now))) sink.new }
{
    for (_, x) in events::in_turn(words) {
        if !events::is_stale(x) {
            record::put_record(sink, x);
        }
    }
}

// The stream at the front of bytes, and those behind it as they were.
fn stream(words: &[u32], bytes: &mut [u8])
    requires words_value { all_listed (live_of (all_of words.now)) ≡ true }
    requires words_in_bounds { length (stream_of (live_of (all_of words.now))) ≤ length bytes.old }
    ensures { bytes.new ≡ stream_of (live_of (all_of words.now)) ++ drop (length (stream_of (live_of (all_of words.now)))) bytes.old }
{
    let mut out = Fill { out: bytes, at: 0 };
    put_stream(&mut out, words);
}

// Events to a stream of records.
pub fn write(words: &[u32], bytes: &mut [u8]) -> Result<Done, Refused>
    ensures value { told result ≡ write_of words.now (length bytes.old) }
    ensures bytes_after { bytes.new ≡ written_of words.now bytes.old }
{
    let done = check(words, bytes.len())?;
    stream(words, bytes);
    Ok(done)
}

// ---- reading

// Events in records, each by the record's first byte.
#[derive(Clone, Copy)]
struct Records<'a>(&'a [u8]);

impl Places for Records<'_> {
    ghost get = { λ s. record_in s.0.now };

    ghost whole = { λ s. record_fits s.0.now };

    fn event(&self, at: usize) -> Event {
        record::get_record(self.0, at)
    }
}

// Whether bytes are a stream of at most `most` events: the first refusal, or how many bytes and events.
fn scan(bytes: &[u8], most: usize) -> Result<Done, Refused>
    ensures { told result ≡ take_of most zero bytes.now 0 outside 0 }
{
    let open = Records(bytes);
    let mut nest = Nest::new();
    let mut count = 0;
    let mut at = 0;
    // a step is a record, whose length its first byte says
    while at < bytes.len() {
        let kind = bytes[at];
        let role = record::role_of(kind);
        let node = record::node_of(kind);
        if !fields::is_listed(role, node) {
            return Err(refused(Refusal::NotListed, at));
        }
        let size = fields::size_of(role, node);
        if bytes.len() - at < size {
            return Err(refused(Refusal::CutShort, at));
        }
        let x = record::get_record(bytes, at);
        nest.fault(&open, x, at)?;
        if most <= count {
            return Err(refused(Refusal::EventsFull, at));
        }
        nest.follow(x, at);
        count += 1;
        at += size;
    }
    if !nest.done {
        return Err(refused(Refusal::CutShort, at));
    }
    Ok(Done {
        taken: at,
        given: count,
    })
}

// The events of a stream, and zeros behind them.
fn unpack(bytes: &[u8], words: &mut [u32])
    requires bytes_value { all_whole zero bytes.now ≡ true }
    requires bytes_in_bounds { length (pack_of (stored_of zero bytes.now)) ≤ length words.old }
    ensures { words.new ≡ pack_of (stored_of zero bytes.now) ++ replicate (length words.old - length (pack_of (stored_of zero bytes.now))) 0 }
{
    let mut at: usize = 0;
    let mut w: usize = 0;
    // a step is a record, as in `scan`
    while at < bytes.len() {
        let x = record::get_record(bytes, at);
        events::put(words, w, x);
        at += fields::size_of(x.role, x.node);
        w += WIDTH;
    }
    events::clear(words, w);
}

// A stream of records to events.
pub fn read(bytes: &[u8], words: &mut [u32]) -> Result<Done, Refused>
    ensures value { told result ≡ read_of bytes.now (length words.old) }
    ensures words_after { words.new ≡ unpacked_of bytes.now words.old }
{
    let done = scan(bytes, words.len() / WIDTH)?;
    unpack(bytes, words);
    Ok(done)
}

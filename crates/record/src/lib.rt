// An event's record in bytes: the kind byte by shift and mask, numbers the lowest byte first (RULES N1 to N3).
#![tactic(auto)]

ghost use Rattle.std.specs.Prelude.{◌≡◌, true, ◌+◌, ◌≤◌, ◌<◌, length, take, drop, get_or, reverse, fold};
ghost use Rattle.fields.specs.Fields.{offset, is_listed, pairs_of, size_of};
ghost use Rattle.record.specs.Record.{kind_byte, role_of, node_of, bytes_of, value_of, with_byte, record_of, event_of, record_in, kind_size, record_fits, body_bytes};

use events::Event;
use sinks::Sink;

// The kind byte: the role in the top three bits, the node in the low five.
fn kind_byte(role: u32, node: u32) -> u8
    requires { (role < 8) × (node < 32) }
    ensures { result ≡ kind_byte role node }
{
    (role << 5 | node) as u8
}

pub fn role_of(kind: u8) -> u32
    ensures { result ≡ role_of kind }
{
    u32::from(kind >> 5)
}

pub fn node_of(kind: u8) -> u32
    ensures { result ≡ node_of kind }
{
    u32::from(kind & 31)
}

// The w lowest bytes of a number. A part of an array is no constant number of bytes, and would be copied by `memcpy`.
fn put_number<S: Sink>(sink: &mut S, w: usize, x: u32)
    requires few { w ≤ 4 }
    requires fits { S.fits sink.old w }
    ensures { S.took sink.old (bytes_of w x) sink.new }
{
    let [a, b, c, d] = x.to_le_bytes();
    match w {
        0 => {}
        1 => sink.put(&[a]),
        2 => sink.put(&[a, b]),
        3 => sink.put(&[a, b, c]),
        _ => sink.put(&[a, b, c, d]),
    }
}

// The number in bytes.
fn number_of(bytes: &[u8]) -> u32
    ensures { result ≡ fold with_byte 0 (reverse bytes.now) }
{
    bytes.iter().rev().fold(0, |x, b| x << 8 | u32::from(*b))
}

// The number in the first w bytes, and the bytes behind them.
fn take_number(bytes: &[u8], w: usize) -> (u32, &[u8])
    requires few { w ≤ 4 }
    requires whole { w ≤ length bytes.now }
    ensures number { result.0 ≡ value_of (take w bytes.now) }
    ensures rest { result.1.now ≡ drop w bytes.now }
    ensures left { w + length result.1.now ≡ length bytes.now }
{
    let (front, rest) = bytes.split_at(w);
    (number_of(front), rest)
}

// The body words of an event.
fn put_body<S: Sink>(sink: &mut S, x: Event)
    requires { S.fits sink.old (length (body_bytes (pairs_of x))) }
    ensures { S.took sink.old (body_bytes (pairs_of x)) sink.new }
{
    for (f, w) in fields::body_of(x) {
        put_number(sink, f.width(), w);
    }
}

// The record of an event.
pub fn put_record<S: Sink>(sink: &mut S, x: Event)
    requires listed { is_listed x.role x.node ≡ true }
    requires fits { S.fits sink.old (size_of offset x.role x.node) }
    ensures { S.took sink.old (record_of offset x) sink.new }
{
    sink.put(&[kind_byte(x.role, x.node)]);
    put_number(sink, fields::OFFSET, x.start);
    put_number(sink, fields::OFFSET, x.end);
    put_body(sink, x);
}

// The event of the record that bytes start with.
fn front_record(bytes: &[u8]) -> Event
    requires { kind_size offset (get_or bytes.now 0 0) ≤ length bytes.now }
    ensures { result ≡ event_of offset bytes.now }
{
    let kind = bytes[0];
    let role = role_of(kind);
    let node = node_of(kind);
    let [e, f, g, h] = fields::row_of(role, node);
    let (start, rest) = take_number(&bytes[1..], fields::OFFSET);
    let (end, rest) = take_number(rest, fields::OFFSET);
    let (a, rest) = take_number(rest, e.width());
    let (b, rest) = take_number(rest, f.width());
    let (c, rest) = take_number(rest, g.width());
    let (d, _) = take_number(rest, h.width());
    Event {
        role,
        node,
        start,
        end,
        a,
        b,
        c,
        d,
    }
}

// The event of the record at a place.
pub fn get_record(bytes: &[u8], at: usize) -> Event
    requires { record_fits bytes.now at ≡ true }
    ensures { result ≡ record_in bytes.now at }
{
    front_record(&bytes[at..])
}

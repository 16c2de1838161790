// The walk: what its definition is stated over, what it asks of a kind and of a line, and the events that it writes.
#![tactic(auto)]

ghost use Rattle.std.specs.Prelude.{◌≡◌, List, ℕ, ◌+◌, ◌^◌, ◌≤◌, ◌<◌, min, length};
ghost use Rattle.classes.specs.Choice.{pick};
ghost use Rattle.lines.specs.Lines.{span};
ghost use Rattle.trim.specs.Trim.{part_of};
ghost use Rattle.events.specs.View.{view, Same};
ghost use Rattle.walk.specs.Fields.{indent_of, from_of, to_of, closed_of, marker_in, is_container};
ghost use Rattle.walk.specs.Leaf.{kept_of, node, pair_node, mark, inline_of, trim_front, trim_back};
ghost use Rattle.walk.specs.Bounds.{Bounded};

use events::{Event, Node, St};
use kinds::Kind;
use markers::Marker;

// A block that was met: its kind, its opening span and its closing span, in the text.
#[derive(Clone, Copy)]
pub struct Met {
    pub kind: Kind,
    pub start: u32,
    pub end: u32,
    pub from: u32,
    pub to: u32,
}

// A line, or what is left of it.
#[derive(Clone, Copy)]
pub struct Line {
    pub start: u32,
    pub end: u32,
}

// How deep containers and sections may nest.
#[derive(Clone, Copy)]
pub struct Limits {
    pub nesting: usize,
    pub sections: usize,
}

// ---- kinds

// The indent of a fence, a definition or an item.
pub fn indent_of(kind: Kind) -> usize
    ensures { result ≡ indent_of kind }
{
    match kind {
        Kind::Fenced { indent, .. } => indent,
        Kind::Definition { indent, .. } => indent,
        Kind::ListItem { indent, .. } => indent,
        _ => 0,
    }
}

// Where the spec, class or label starts, from the line's start.
pub fn from_of(kind: Kind) -> usize
    ensures { result ≡ from_of kind }
{
    match kind {
        Kind::Fenced { spec, .. } => spec.start,
        Kind::Definition { label, .. } => label.start,
        _ => 0,
    }
}

// And where it ends.
pub fn to_of(kind: Kind) -> usize
    ensures { result ≡ to_of kind }
{
    match kind {
        Kind::Fenced { spec, .. } => spec.end,
        Kind::Definition { label, .. } => label.end,
        _ => 0,
    }
}

// Whether it is a fence that was closed.
pub fn closed_of(kind: Kind) -> bool
    ensures { result ≡ closed_of kind }
{
    match kind {
        Kind::Fenced { closed, .. } => closed,
        _ => false,
    }
}

pub fn marker_in(kind: Kind) -> Marker
    ensures { result ≡ marker_in kind }
{
    match kind {
        Kind::ListItem { marker, .. } => marker,
        _ => Marker::Nothing,
    }
}

pub fn is_container(kind: Kind) -> bool
    ensures { result ≡ is_container kind }
{
    match kind {
        Kind::Fenced { mark, .. } => mark == b':',
        Kind::Definition { footnote, .. } => footnote,
        Kind::Blockquote => true,
        Kind::ListItem { .. } => true,
        _ => false,
    }
}

// ---- lines

fn wide(x: u32) -> usize
    ensures { result ≡ x }
{
    x as usize
}

// An offset inside the line that starts at `base`.
pub fn offset(base: u32, rel: usize) -> u32
    requires { base + rel < 2 ^ 32 }
    ensures { result ≡ base + rel }
{
    (wide(base) + rel) as u32
}

pub fn part_at(text: &[u8], start: u32, end: u32) -> &[u8]
    ensures { result.now ≡ part_of text.now start end }
{
    trim::part(text, wide(start), wide(end))
}

// Where a line's text starts, and where it ends.
pub fn strip_front(text: &[u8], start: u32, end: u32) -> u32
    ensures { result ≡ (trim_front text.now (span start end)).start }
{
    let line = part_at(text, start, end);
    let front = trim::trim_start(line);
    offset(start, line.len() - front.len())
}

pub fn strip_end(text: &[u8], start: u32, end: u32) -> u32
    ensures { result ≡ (trim_back text.now (span start end)).end }
{
    offset(start, trim::trim_end(part_at(text, start, end)).len())
}

pub fn least(a: usize, b: usize) -> usize
    ensures { result ≡ min a b }
{
    if a < b {
        return a;
    }
    b
}

// ---- sections

// How many of these open sections a heading of this level leaves open.
pub fn kept_sections(levels: &[usize], level: usize) -> usize
    ensures { (result ≡ kept_of levels.now level (length levels.now)) × (result ≤ length levels.now) }
{
    let mut n = levels.len();
    while 0 < n {
        if levels[n - 1] < level {
            return n;
        }
        n -= 1;
    }
    0
}

// ---- events

pub fn flag(yes: bool) -> u32
    ensures { result ≡ pick yes 1 0 }
{
    if yes {
        return 1;
    }
    0
}

pub fn node(n: u32, start: u32, end: u32, a: u32, b: u32, c: u32, d: u32) -> Node
    ensures { result ≡ node n start end a b c d }
{
    Node {
        node: n,
        start,
        end,
        a,
        b,
        c,
        d,
    }
}

// A node whose body is the offsets of its label, spec or class; `line` is where its first line starts.
pub fn pair_node(m: Met, line: u32, n: u32) -> Node
    requires { Bounded m line }
    ensures { result ≡ pair_node m line n }
{
    let kind = m.kind;
    let from = offset(line, from_of(kind));
    let to = offset(line, to_of(kind));
    node(n, m.start, m.end, from, to, 0, 0)
}

pub fn mark(role: u32, n: u32, start: u32, end: u32, a: u32) -> Event
    ensures { result ≡ mark role n start end a }
{
    Event {
        role,
        node: n,
        start,
        end,
        a,
        b: 0,
        c: 0,
        d: 0,
    }
}

pub fn inline(events: &mut [u32], st: St, start: u32, end: u32) -> St
    requires { st.words ≤ length events.old }
    ensures by_index { (k l v : List ℕ) → view result events.new k l v ≡ inline_of start end (view st events.old k l v) }
    ensures words_in_bounds { (result.words ≤ length events.new) × (result.number ≡ 0 → result.words ≡ st.words + 8) × Same st result }
{
    events::push(events, st, mark(events::INLINE, 0, start, end, 0))
}

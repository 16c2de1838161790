// What a line begins: its kind and opening span (RULES K, O1). Offsets are from the line's start.
#![tactic(auto)]

ghost use Rattle.std.specs.Prelude.{◌≡◌, ◌+◌, ◌^◌, ◌≤◌, ◌<◌, length};
ghost use Rattle.trim.specs.Trim.{front};
ghost use Rattle.kinds.specs.Numbers.{kind_num};
ghost use Rattle.kinds.specs.Bytes.{same, is_mark, is_spec_byte, break_of, bar_end};
ghost use Rattle.kinds.specs.Identify.{identified_as, paragraph_at, heading_of, quote_of, attributes_of, table_of, definition_of, item_of, spec_ok, fence_of, identify_of};

use attrs;
use classes;
use lines::Span;
use markers;
use markers::Marker;
use trim;

mod rest;

use rest::Rest;

// A code fence that is open inside a div.
#[derive(Clone, Copy, Debug, PartialEq, Eq)]
pub struct Nested {
    pub mark: u8,
    pub length: usize,
}

// A block's kind, with what its lines have told so far (H1).
#[derive(Clone, Copy, Debug, PartialEq, Eq)]
pub enum Kind {
    // a line with nothing but whitespace
    Blankline,
    // a set of attributes
    Attributes,
    ThematicBreak,
    Paragraph,
    Heading {
        level: usize,
    },
    // code, or a div where the mark is `:`
    Fenced {
        indent: usize,
        length: usize,
        mark: u8,
        // the spec or class
        spec: Span<usize>,
        // the closing fence was met
        closed: bool,
        nested: Option<Nested>,
    },
    // a link definition or a footnote
    Definition {
        indent: usize,
        footnote: bool,
        label: Span<usize>,
        // the line before was blank
        last_blank: bool,
    },
    Blockquote,
    ListItem {
        indent: usize,
        marker: Marker,
        // the line before was blank
        last_blank: bool,
    },
    Table {
        // its caption has begun
        caption: bool,
        // a blank line was met, so that only blank lines or a caption may follow
        blank: bool,
    },
}

// A kind's number: the node of an Atom's event has it (E4).
impl From<Kind> for u8 {
    ghost from_gives = { λ x n. n ≡ kind_num x };

    fn from(kind: Kind) -> u8 {
        match kind {
            Kind::Blankline => 1,
            Kind::Attributes => 2,
            Kind::ThematicBreak => 3,
            Kind::Paragraph => 4,
            Kind::Heading { .. } => 5,
            Kind::Fenced { .. } => 6,
            Kind::Definition { .. } => 7,
            Kind::Blockquote => 8,
            Kind::ListItem { .. } => 9,
            Kind::Table { .. } => 10,
        }
    }
}

// What a line begins, and the opening span.
#[derive(Clone, Copy, Debug, PartialEq, Eq)]
pub struct Identified {
    pub kind: Kind,
    pub opening: Span<usize>,
}

impl Identified {
    fn new(kind: Kind, start: usize, end: usize) -> Self
        ensures { result ≡ identified_as kind start end }
    {
        Identified {
            kind,
            opening: Span { start, end },
        }
    }

    fn paragraph(n: usize) -> Self
        ensures { result ≡ paragraph_at n }
    {
        Self::new(Kind::Paragraph, n, n)
    }
}

// How many bytes at the front are b.
pub fn run_of(t: &[u8], b: u8) -> usize
    ensures { (result ≡ front (same b) t.now) × (result ≤ length t.now) }
{
    t.iter().position(|c| *c != b).unwrap_or(t.len())
}

// No whitespace and no backtick.
#[tactic(auto, unfolding(crate::specs::Bytes::is_spec_byte))]
fn is_spec_byte(b: u8) -> bool
    ensures { result ≡ is_spec_byte b }
{
    b != b'`' && !classes::is_space(b)
}

// What a thematic break is made of.
fn is_mark(b: u8) -> bool
    ensures { result ≡ is_mark b }
{
    matches!(b, b'-' | b'*')
}

// Whether t has three marks or more, and else only whitespace. It stops at the first other byte.
fn is_break(t: &[u8]) -> bool
    ensures { result ≡ break_of 0 t.now }
{
    let mut marks: usize = 0;
    for b in t {
        if is_mark(*b) {
            marks += 1;
        } else if !classes::is_space(*b) {
            return false;
        }
    }
    3 <= marks
}

// Whether a trimmed line ends in `|` but not in `\|`.
#[tactic(auto, unfolding(crate::specs::Bytes::bar_end))]
pub fn bar_end(s: &[u8]) -> bool
    ensures { result ≡ bar_end s.now }
{
    s.ends_with(b"|") && !s.ends_with(b"\\|")
}

fn heading(t: Rest) -> Identified
    ensures { result ≡ heading_of t.entry.indent t.entry.bytes.now }
{
    let level = run_of(t.bytes, b'#');
    if markers::ends(t.bytes, level) {
        return Identified::new(Kind::Heading { level }, t.indent, t.indent + level);
    }
    Identified::paragraph(t.indent)
}

fn quote(t: Rest) -> Identified
    ensures { result ≡ quote_of t.entry.indent t.entry.bytes.now }
{
    if markers::ends(t.bytes, 1) {
        return Identified::new(Kind::Blockquote, t.indent, t.indent + 1);
    }
    Identified::paragraph(t.indent)
}

// The machine's Done comes first at the end of the trimmed line.
fn attributes(t: Rest) -> Identified
    ensures { result ≡ attributes_of t.entry.indent t.entry.bytes.now }
{
    if attrs::valid(t.bytes) == trim::trim_end(t.bytes).len() {
        return Identified::new(Kind::Attributes, t.indent, t.indent + t.bytes.len());
    }
    Identified::paragraph(t.indent)
}

fn table(t: Rest) -> Identified
    ensures { result ≡ table_of t.entry.indent t.entry.bytes.now }
{
    let row = trim::trim_end(t.bytes);
    if 2 <= row.len() && bar_end(row) {
        let kind = Kind::Table {
            caption: false,
            blank: false,
        };
        return Identified::new(kind, t.indent, t.indent);
    }
    Identified::paragraph(t.indent)
}

// Its opening span starts at the line's start, and not at the indent.
fn definition(t: Rest) -> Identified
    ensures { result ≡ definition_of t.entry.indent t.entry.bytes.now }
{
    if !trim::defines(t.bytes) {
        return Identified::paragraph(t.indent);
    }
    let start = t.indent + trim::label_start(t.bytes);
    let end = start + trim::label(t.bytes).len();
    let kind = Kind::Definition {
        indent: t.indent,
        footnote: classes::byte_at(t.bytes, 1) == b'^',
        label: Span { start, end },
        last_blank: false,
    };
    Identified::new(kind, 0, end + 2)
}

// A list item, or a paragraph where no marker stands.
#[tactic(auto, unfolding(crate::specs::Identify::item_of))]
fn item(t: Rest) -> Identified
    ensures { result ≡ item_of t.entry.indent t.entry.bytes.now }
{
    let Some(read) = markers::read_marker(t.bytes) else {
        return Identified::paragraph(t.indent);
    };
    let kind = Kind::ListItem {
        indent: t.indent,
        marker: read.marker,
        last_blank: false,
    };
    Identified::new(kind, t.indent, t.indent + read.len)
}

// A class has name bytes, a spec no whitespace and no backtick.
fn spec_ok(mark: u8, spec: &[u8]) -> bool
    ensures { result ≡ spec_ok mark spec.now }
{
    if mark == b':' {
        return spec.iter().all(|b| classes::is_name(*b));
    }
    spec.iter().all(|b| is_spec_byte(*b))
}

// Three marks or more, then at most a spec; a div's is a class. It is called from two places, and what it found would be copied about if it stood alone.
#[inline(always)]
fn fence(t: Rest) -> Identified
    ensures { result ≡ fence_of t.entry.indent t.entry.bytes.now }
{
    let mark = classes::byte_at(t.bytes, 0);
    let length = run_of(t.bytes, mark);
    if length < 3 {
        return Identified::paragraph(t.indent);
    }
    let whole = trim::trim_end(t.bytes);
    let rest = trim::part(t.bytes, length, whole.len());
    let spec = trim::trim_start(rest);
    if !spec_ok(mark, spec) {
        return Identified::paragraph(t.indent);
    }
    let start = length + (rest.len() - spec.len());
    let kind = Kind::Fenced {
        indent: t.indent,
        length,
        mark,
        spec: Span {
            start: t.indent + start,
            end: t.indent + whole.len(),
        },
        closed: false,
        nested: None,
    };
    Identified::new(kind, t.indent, t.indent + t.bytes.len())
}

// The first byte asks for the rule: `-` and `*` give a break before an item, `:` a description item before a div. Each rule reads no
// further than it must, and is called from here alone, so that what it found is not copied about.
pub fn identify(line: &[u8]) -> Identified
    ensures { result ≡ identify_of line.now }
{
    let n = trim::indent_of(line);
    let bytes = &line[n..];
    if bytes.is_empty() {
        return Identified::new(Kind::Blankline, n, n);
    }
    let t = Rest { indent: n, bytes };
    match bytes[0] {
        b'\n' => Identified::new(Kind::Blankline, n, n + 1),
        b'#' => heading(t),
        b'>' => quote(t),
        b'{' => attributes(t),
        b'|' => table(t),
        b'[' => definition(t),
        b'-' | b'*' if is_break(bytes) => Identified::new(
            Kind::ThematicBreak,
            n,
            n + trim::trim_end(bytes).len(),
        ),
        b'`' | b'~' => fence(t),
        b':' if !markers::ends(bytes, 1) => fence(t),
        _ => item(t),
    }
}

// How many lines a block takes: whether a line continues it, and the one function that looks at a line (RULES H).
#![tactic(auto)]

ghost use Rattle.std.specs.Prelude.{◌≡◌, true, false, Some, ◌+◌, ◌^◌, ◌<◌, ◌≤◌, length};
ghost use Rattle.lines.specs.Lines.{spans_of};
ghost use Rattle.kinds.specs.declared.Kind.TheVariants.{Table};
ghost use Rattle.measure.specs.Continue.{kind_num, taken_as, level_of, fence_in, blank_line, link_on, row_on, caption_at, table_on, by_fence};
ghost use Rattle.measure.specs.Measure.{gives_back, measure_of};
ghost use Rattle.measure.specs.Look.{opens_quote, late_of, Tells, Indented, looked_as, look_of};

use classes;
use kinds;
use kinds::{Kind, Nested};
use lines::Span;
use trim;

// A fence line: its mark, its length, and whether nothing follows it.
#[derive(Clone, Copy)]
struct Fence {
    mark: u8,
    length: usize,
    bare: bool,
}

// What a fenced block's line can change: its end, and the code fence that is open inside a div.
#[derive(Clone, Copy)]
struct Inner {
    closed: bool,
    nested: Option<Nested>,
}

// A block measured: its kind after its lines, its opening span (from its first line's start), how many lines it
// takes, how many of those are blank ones to be given back, and how many looks that cost.
#[derive(Clone, Copy, Debug, PartialEq, Eq)]
pub struct Measured {
    pub kind: Kind,
    pub opening: Span<usize>,
    pub lines: usize,
    pub given: usize,
    pub looks: u64,
}

// The kinds' numbers, as `u8::from` gives them.
pub const BLANKLINE: u8 = 1;

pub const ATTRIBUTES: u8 = 2;

pub const THEMATIC_BREAK: u8 = 3;

pub const PARAGRAPH: u8 = 4;

pub const HEADING: u8 = 5;

pub const FENCED: u8 = 6;

pub const DEFINITION: u8 = 7;

pub const BLOCKQUOTE: u8 = 8;

pub const LIST_ITEM: u8 = 9;

pub const TABLE: u8 = 10;

// A kind's number.
pub fn kind_num(kind: Kind) -> u8
    ensures { result ≡ kind_num kind }
{
    u8::from(kind)
}

// A heading's level, and 0 for any other kind.
pub fn level_of(kind: Kind) -> usize
    ensures { result ≡ level_of kind }
{
    match kind {
        Kind::Heading { level } => level,
        _ => 0,
    }
}

fn fence_in(kind: &Kind) -> Option<Fence>
    ensures { result ≡ fence_in kind.now }
{
    match kind {
        Kind::Fenced {
            length,
            mark,
            spec,
            ..
        } => Some(Fence {
            mark: *mark,
            length: *length,
            bare: spec.start == spec.end,
        }),
        _ => None,
    }
}

// Whether a line has nothing but whitespace; it is read no further than to its first other byte.
fn is_blank(line: &[u8]) -> bool
    ensures { result ≡ blank_line line.now }
{
    trim::trim_start(line).len() == 0
}

// A link definition takes lines that start with a space and are not blank.
#[tactic(auto, unfolding(crate::specs::Continue::link_on))]
fn link_on(line: &[u8]) -> bool
    ensures { result ≡ link_on line.now }
{
    line.starts_with(b" ") && !is_blank(line)
}

// A table's next row: `|`, and ending in `|` but not `\|`.
#[tactic(auto, unfolding(crate::specs::Continue::row_on))]
fn row_on(row: &[u8]) -> bool
    ensures { result ≡ row_on row.now }
{
    row.starts_with(b"|") && kinds::bar_end(row)
}

// A caption's first line: `^` and a space.
#[tactic(auto, unfolding(crate::specs::Continue::caption_at))]
fn caption_at(row: &[u8]) -> bool
    ensures { result ≡ caption_at row.now }
{
    row.starts_with(b"^ ")
}

// What a line that is a fence, or none, changes in an open fenced block of this length and mark.
fn after_fence(length: usize, mark: u8, nested: Option<Nested>, f: Fence) -> Inner
    ensures { result ≡ by_fence length mark nested f }
{
    match nested {
        Some(x) if f.mark == x.mark && x.length <= f.length && f.bare => Inner {
            closed: false,
            nested: None,
        },
        Some(_) => Inner {
            closed: false,
            nested,
        },
        None if f.mark == mark => Inner {
            closed: length <= f.length && f.bare,
            nested,
        },
        None if mark == b':' => Inner {
            closed: false,
            nested: Some(Nested {
                mark: f.mark,
                length: f.length,
            }),
        },
        None => Inner {
            closed: false,
            nested,
        },
    }
}

// Whether the first byte after the indent is `>`: the line begins a blockquote or a paragraph.
#[tactic(auto, unfolding(crate::specs::Look::opens_quote))]
fn opens_quote(line: &[u8]) -> bool
    ensures { result ≡ opens_quote line.now }
{
    line.get(trim::indent_of(line)) == Some(&b'>')
}

// Items and footnotes take blanks, more indented lines, and Paragraph lines not after a blank.
fn indented_on(indent: usize, last_blank: &mut bool, line: &[u8]) -> Option<bool>
    ensures { Indented indent last_blank.old line.now result last_blank.new }
{
    let n = trim::indent_of(line);
    if line.get(n).copied().unwrap_or(b'\n') == b'\n' {
        *last_blank = true;
        return Some(true);
    }
    if indent < n {
        *last_blank = false;
        return Some(true);
    }
    if *last_blank {
        return Some(false);
    }
    None
}

// A table takes rows, then blanks, then a caption's lines up to a blank.
#[tactic(auto, unfolding(crate::specs::Continue::table_on))]
fn table_on(caption: &mut bool, blank: &mut bool, line: &[u8]) -> bool
    ensures { taken_as result (Table caption.new blank.new) ≡ table_on caption.old blank.old line.now }
{
    let row = trim::trim(line);
    if *caption {
        return !row.is_empty();
    }
    if row.is_empty() {
        *blank = true;
        return true;
    }
    if caption_at(row) {
        *caption = true;
        return true;
    }
    !*blank && row_on(row)
}

// What is told before the line's kind is known: atoms take no line, and a closed fence none; a paragraph takes lines that are not blank.
#[tactic(auto, unfolding(crate::specs::Continue::continues_of, crate::specs::Continue::heading_on, crate::specs::Continue::quote_on, crate::specs::Continue::open_fence, crate::specs::Continue::definition_on, crate::specs::Continue::item_on, crate::specs::Continue::num_of))]
fn early(block: &mut Kind, line: &[u8]) -> Option<bool>
    ensures { Tells block.old line.now result block.new }
{
    match block {
        Kind::Blankline => Some(false),
        Kind::Attributes => Some(false),
        Kind::ThematicBreak => Some(false),
        Kind::Paragraph => Some(!is_blank(line)),
        Kind::Heading { .. } => None,
        Kind::Fenced { closed, .. } => if *closed { Some(false) } else { None },
        Kind::Definition {
            footnote: false,
            ..
        } => Some(link_on(line)),
        Kind::Definition {
            indent,
            last_blank,
            ..
        } => indented_on(*indent, last_blank, line),
        Kind::Blockquote => if opens_quote(line) { Some(true) } else { None },
        Kind::ListItem {
            indent,
            last_blank,
            ..
        } => indented_on(*indent, last_blank, line),
        Kind::Table { caption, blank } => Some(table_on(caption, blank, line)),
    }
}

// What the kind of the line tells: a heading takes Paragraph lines and headings of its own level; a fence every line until it is closed;
// a blockquote Blockquote and Paragraph lines; items and footnotes Paragraph lines.
fn late(block: &mut Kind, next: &Kind) -> bool
    ensures { taken_as result block.new ≡ late_of block.old next.now }
{
    match block {
        Kind::Fenced {
            length,
            mark,
            closed,
            nested,
            ..
        } => {
            if let Some(f) = fence_in(next) {
                let inner = after_fence(*length, *mark, *nested, f);
                *closed = inner.closed;
                *nested = inner.nested;
            }
            true
        }
        Kind::Heading { level } => match next {
            Kind::Paragraph => true,
            Kind::Heading { level: l } => *level == *l,
            _ => false,
        },
        Kind::Blockquote => matches!(next, Kind::Paragraph | Kind::Blockquote),
        _ => matches!(next, Kind::Paragraph),
    }
}

// THE test of a line, to begin or to continue a block: nothing else in the parser asks what a line is. It counts the look.
#[tactic(auto, unfolding(crate::specs::Look::look_of))]
fn look(m: &mut Measured, line: &[u8]) -> bool
    requires { m.old.looks < 2 ^ 63 }
    ensures { looked_as result m.new ≡ look_of m.old line.now }
{
    m.looks += 1;
    if m.lines != 0
        && let Some(taken) = early(&mut m.kind, line)
    {
        return taken;
    }
    let found = kinds::identify(line);
    if m.lines == 0 {
        m.kind = found.kind;
        m.opening = found.opening;
        return true;
    }
    late(&mut m.kind, &found.kind)
}

// Blank lines at a table's end, once one more line is taken: a blank one adds to them, a caption keeps them.
fn gives_back(kind: &Kind, given: usize) -> usize
    requires { given < 2 ^ 63 }
    ensures { (result ≡ gives_back kind.now given) × (result ≤ given + 1) }
{
    match kind {
        Kind::Table {
            caption: false,
            blank: true,
        } => given + 1,
        _ => 0,
    }
}

// Measures the block that the first of these lines begins (H1, H16). The first turn begins it.
pub fn measure(text: &[u8], lines: &[u32]) -> Measured
    ensures { result ≡ measure_of text.now (spans_of lines.now) }
{
    let mut m = Measured {
        kind: Kind::Blankline,
        opening: Span { start: 0, end: 0 },
        lines: 0,
        given: 0,
        looks: 0,
    };
    for words in lines.chunks_exact(2) {
        let line = trim::part(text, words[0] as usize, words[1] as usize);
        if !look(&mut m, line) {
            break;
        }
        m.given = gives_back(&m.kind, m.given);
        m.lines += 1;
    }
    m
}

// Leaf blocks: paragraphs, headings with their sections, code, link definitions (RULES I, S1 to S5).
#![tactic(auto)]

ghost use Rattle.std.specs.Prelude.{◌≡◌, true, List, ℕ, ◌≤◌, eqb, length};
ghost use Rattle.classes.specs.Choice.{pick, both};
ghost use Rattle.lines.specs.Lines.{span, spans_of};
ghost use Rattle.measure.specs.Continue.{heading_kind, kind_num, level_of};
ghost use Rattle.events.specs.Names.{deepest};
ghost use Rattle.events.specs.View.{view, Fits, Same};
ghost use Rattle.walk.specs.Leaf.{trim_marks, code_line, plain_line, leaf_line, line_event, inlines_of, begin_section, end_sections, section_at, section_of, leaf_node, leaf_of};
ghost use Rattle.walk.specs.Bounds.{Bounded};

use events::{Node, St};
use kinds::Kind;
use walk::{Line, Met};

// ---- lines

// A heading's later line without its whitespace, marks and whitespace, where whitespace follows the marks.
fn strip_marks(text: &[u8], start: u32, end: u32) -> u32
    ensures { span result end ≡ trim_marks text.now (span start end) }
{
    let marks = walk::strip_front(text, start, end);
    let after = walk::offset(marks, kinds::run_of(walk::part_at(text, marks, end), b'#'));
    let rest = walk::strip_front(text, after, end);
    if rest == after {
        return start;
    }
    rest
}

// A code line without up to the fence's indent.
fn strip_indent(text: &[u8], start: u32, end: u32, indent: usize) -> u32
    ensures { span result end ≡ code_line text.now indent (span start end) }
{
    let line = walk::part_at(text, start, end);
    walk::offset(start, walk::least(indent, trim::indent_of(line)))
}

// Text at the front is trimmed, and at the end of the last line.
fn plain_line(text: &[u8], last: bool, start: u32, end: u32) -> Line
    ensures { span result.start result.end ≡ plain_line text.now last (span start end) }
{
    let s = walk::strip_front(text, start, end);
    if last {
        return Line {
            start: s,
            end: walk::strip_end(text, s, end),
        };
    }
    Line { start: s, end }
}

fn leaf_line(text: &[u8], kind: Kind, first: bool, last: bool, start: u32, end: u32) -> Line
    ensures { span result.start result.end ≡ leaf_line text.now kind first last (span start end) }
{
    let n = measure::kind_num(kind);
    if n == measure::FENCED {
        return Line {
            start: strip_indent(text, start, end, walk::indent_of(kind)),
            end,
        };
    }
    if n == measure::HEADING {
        if first {
            return plain_line(text, last, start, end);
        }
        return plain_line(text, last, strip_marks(text, start, end), end);
    }
    if n == measure::DEFINITION {
        return plain_line(text, true, start, end);
    }
    plain_line(text, last, start, end)
}

// An Inline for a line that is not empty.
fn line_event(events: &mut [u32], st: St, l: Line) -> St
    requires { st.words ≤ length events.old }
    ensures by_index { (k s v : List ℕ) → view result events.new k s v ≡ line_event (span l.start l.end) (view st events.old k s v) }
    ensures words_in_bounds { (result.words ≤ length events.new) × Same st result }
{
    if l.end <= l.start {
        return st;
    }
    walk::inline(events, st, l.start, l.end)
}

// An Inline for each line that is not empty.
fn inlines(text: &[u8], lines: &[u32], events: &mut [u32], kind: Kind, st: St) -> St
    requires { st.words ≤ length events.old }
    ensures by_index { (k l v : List ℕ) → view result events.new k l v ≡ inlines_of text.now kind true (spans_of lines.now) (view st events.old k l v) }
    ensures words_in_bounds { (result.words ≤ length events.new) × Same st result }
{
    let n = lines.len() / 2;
    let mut a = st;
    let mut k: usize = 0;
    while k < n {
        let first = k == 0;
        let last = k + 1 == n;
        let l = leaf_line(text, kind, first, last, lines[k * 2], lines[k * 2 + 1]);
        let b = line_event(events, a, l);
        if b.number != 0 {
            return b;
        }
        a = b;
        k += 1;
    }
    a
}

// ---- sections

// The section of a heading opens where the heading starts, inside the first `kept` ones.
fn begin_section(
    events: &mut [u32],
    stack: &mut [usize],
    levels: &mut [usize],
    level: usize,
    start: u32,
    kept: usize,
    st: St,
) -> St
    requires { Fits st events.old stack.old × (kept ≤ st.sections) × (st.sections ≤ length levels.old) × (deepest ≤ length levels.old) }
    ensures by_index { (l : List ℕ) → view result events.new stack.new l levels.new ≡ begin_section level start kept (view st events.old stack.old l levels.old) }
    ensures fits { Fits result events.new stack.new × (result.sections ≤ length levels.new) × (result.lists ≡ st.lists) }
{
    if events::DEEPEST <= kept {
        return events::refuse(st, 7);
    }
    let a = events::push_level(levels, st, kept, level);
    events::enter(
        events,
        stack,
        a,
        walk::node(events::SECTION, start, start, start, 0, 0, 0),
    )
}

// All but the first `kept` sections end at `pos`, before word `word`.
fn end_sections(
    events: &mut [u32],
    stack: &[usize],
    kept: usize,
    pos: u32,
    word: usize,
    st: St,
) -> St
    requires { Fits st events.old stack.now × (word ≤ st.words) × (kept ≤ st.sections) }
    ensures by_index { (l v : List ℕ) → st.sections ≤ length v → view result events.new stack.now l v ≡ end_sections kept pos word (view st events.old stack.now l v) }
    ensures fits { Fits result events.new stack.now × (result.lists ≡ st.lists) × (result.sections ≡ st.sections) }
{
    let d = st.depth;
    let closed = st.sections - kept;
    if d < closed {
        return events::refuse(st, 7);
    }
    let left = d - closed;
    let a = moves::end_sections(events, &stack[left..d], st, pos, word);
    if a.number != 0 {
        return a;
    }
    let mut r = a;
    r.depth = left;
    r
}

// The sections that a heading ends, and the one that it begins.
fn section_at(
    events: &mut [u32],
    stack: &mut [usize],
    levels: &mut [usize],
    level: usize,
    start: u32,
    pos: u32,
    word: usize,
    st: St,
) -> St
    requires { Fits st events.old stack.old × (word ≤ st.words) × (st.sections ≤ length levels.old) × (deepest ≤ length levels.old) }
    ensures by_index { (l : List ℕ) → view result events.new stack.new l levels.new ≡ section_at level start pos word (view st events.old stack.old l levels.old) }
    ensures fits { Fits result events.new stack.new × (result.sections ≤ length levels.new) × (result.lists ≡ st.lists) }
{
    let n = st.sections;
    let kept = walk::kept_sections(&levels[..n], level);
    let a = end_sections(events, stack, kept, pos, word, st);
    if a.number != 0 {
        return a;
    }
    begin_section(events, stack, levels, level, start, kept, a)
}

// They end before the attributes just before the heading, at the first one's start, or at the heading's.
fn section(
    events: &mut [u32],
    stack: &mut [usize],
    levels: &mut [usize],
    level: usize,
    start: u32,
    st: St,
) -> St
    requires { Fits st events.old stack.old × (st.sections ≤ length levels.old) × (deepest ≤ length levels.old) }
    ensures by_index { (l : List ℕ) → view result events.new stack.new l levels.new ≡ section_of level start (view st events.old stack.old l levels.old) }
    ensures fits { Fits result events.new stack.new × (result.sections ≤ length levels.new) × (result.lists ≡ st.lists) }
{
    if st.attr == 0 {
        let w = st.words;
        return section_at(events, stack, levels, level, start, start, w, st);
    }
    let at = st.attr - 1;
    if !events::whole(st, at) {
        return events::refuse(st, 7);
    }
    let pos = events::word(events, st, at + events::START);
    section_at(events, stack, levels, level, start, pos, at, st)
}

// ---- the leaf

// The Enter of a leaf; `line` is where its first line starts.
fn leaf_node(m: Met, line: u32, top: bool) -> Node
    requires { Bounded m line }
    ensures { result ≡ leaf_node m line top }
{
    let kind = m.kind;
    let n = measure::kind_num(kind);
    if n == measure::HEADING {
        let level = measure::level_of(kind) as u32;
        return walk::node(
            events::HEADING,
            m.start,
            m.end,
            level,
            walk::flag(top),
            m.start,
            0,
        );
    }
    if n == measure::DEFINITION {
        return walk::pair_node(m, line, events::LINK_DEFINITION);
    }
    if n == measure::FENCED {
        return walk::pair_node(m, line, events::CODE_BLOCK);
    }
    walk::node(events::PARAGRAPH, m.start, m.end, 0, 0, 0, 0)
}

// A heading at the top begins a section.
fn heading(
    events: &mut [u32],
    stack: &mut [usize],
    levels: &mut [usize],
    m: Met,
    top: bool,
    st: St,
) -> St
    requires { Fits st events.old stack.old × (st.sections ≤ length levels.old) × (deepest ≤ length levels.old) }
    ensures by_index { (l : List ℕ) → view result events.new stack.new l levels.new ≡ pick (both top (eqb (kind_num m.kind) heading_kind)) (section_of (level_of m.kind) m.start (view st events.old stack.old l levels.old)) (view st events.old stack.old l levels.old) }
    ensures fits { Fits result events.new stack.new × (result.sections ≤ length levels.new) × (result.lists ≡ st.lists) }
{
    let kind = m.kind;
    if !top {
        return st;
    }
    if measure::kind_num(kind) != measure::HEADING {
        return st;
    }
    section(events, stack, levels, measure::level_of(kind), m.start, st)
}

// A leaf: for a heading at the top its section, then Enter, an Inline for each line, Exit.
pub fn leaf(
    text: &[u8],
    lines: &[u32],
    events: &mut [u32],
    stack: &mut [usize],
    levels: &mut [usize],
    m: Met,
    line: u32,
    top: bool,
    st: St,
) -> St
    requires { Fits st events.old stack.old × (st.sections ≤ length levels.old) × (deepest ≤ length levels.old) × Bounded m line }
    ensures by_index { (l : List ℕ) → view result events.new stack.new l levels.new ≡ leaf_of text.now m line top (spans_of lines.now) (view st events.old stack.old l levels.old) }
    ensures fits { Fits result events.new stack.new × (result.sections ≤ length levels.new) × (result.lists ≡ st.lists) }
{
    let kind = m.kind;
    let a = heading(events, stack, levels, m, top, st);
    if a.number != 0 {
        return a;
    }
    let b = events::enter(events, stack, a, leaf_node(m, line, top));
    if b.number != 0 {
        return b;
    }
    let c = inlines(text, lines, events, kind, b);
    if c.number != 0 {
        return c;
    }
    events::exit(events, stack, c, m.from, m.to)
}

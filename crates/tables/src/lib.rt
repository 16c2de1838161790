// Tables: the caption, the rows before it (RULES X13 to X15).
#![tactic(auto)]

ghost use Rattle.std.specs.Prelude.{◌≡◌, true, List, ℕ, ◌*◌, ◌≤◌, length};
ghost use Rattle.lines.specs.Lines.{span, spans_of};
ghost use Rattle.events.specs.View.{view, Fits, Same, Kept};
ghost use Rattle.walk.specs.Table.{caption_line, past_caret, caption_text, caption_lines, caption_of, table_of};

use events::St;
use walk::{Line, Met};

// ---- the caption

// The first line that a caption begins at, or the number of lines: the walk over lines, and inside each over its bytes,
// is left at the first line whose first byte that is no whitespace is `^`.
fn caption_line(text: &[u8], lines: &[u32]) -> usize
    ensures { (result ≡ caption_line text.now (spans_of lines.now)) × (result * 2 ≤ length lines.now) }
{
    let n = lines.len() / 2;
    let mut k: usize = 0;
    'lines: while k < n {
        let line = walk::part_at(text, lines[k * 2], lines[k * 2 + 1]);
        let mut i: usize = 0;
        'bytes: while i < line.len() {
            let b = line[i];
            if classes::is_space(b) {
                i += 1;
                continue 'bytes;
            }
            if b == b'^' {
                break 'lines;
            }
            k += 1;
            continue 'lines;
        }
        k += 1;
    }
    k
}

// Where a caption's first line starts, without `^ `.
fn past_caret(text: &[u8], start: u32, end: u32) -> u32
    ensures { span result end ≡ past_caret text.now (span start end) }
{
    let s = walk::strip_front(text, start, end);
    walk::offset(s, walk::least(2, walk::part_at(text, s, end).len()))
}

// A caption's line: the first without `^ `, the last trimmed at its end.
fn caption_text(text: &[u8], first: bool, last: bool, start: u32, end: u32) -> Line
    ensures { span result.start result.end ≡ caption_text text.now first last (span start end) }
{
    let mut s = start;
    if first {
        s = past_caret(text, start, end);
    }
    if last {
        return Line {
            start: s,
            end: walk::strip_end(text, s, end),
        };
    }
    Line { start: s, end }
}

// An Inline for each of a caption's lines.
fn caption_lines(text: &[u8], lines: &[u32], events: &mut [u32], st: St) -> St
    requires { st.words ≤ length events.old }
    ensures by_index { (k l v : List ℕ) → view result events.new k l v ≡ caption_lines text.now true (spans_of lines.now) (view st events.old k l v) }
    ensures words_in_bounds { (result.words ≤ length events.new) × Same st result }
{
    let n = lines.len() / 2;
    let mut a = st;
    let mut k: usize = 0;
    while k < n {
        let first = k == 0;
        let last = k + 1 == n;
        let l = caption_text(text, first, last, lines[k * 2], lines[k * 2 + 1]);
        let b = walk::inline(events, a, l.start, l.end);
        if b.number != 0 {
            return b;
        }
        a = b;
        k += 1;
    }
    a
}

fn caption(
    text: &[u8],
    lines: &[u32],
    events: &mut [u32],
    stack: &mut [usize],
    m: Met,
    st: St,
) -> St
    requires { Fits st events.old stack.old }
    ensures by_index { (l v : List ℕ) → view result events.new stack.new l v ≡ caption_of text.now m (spans_of lines.now) (view st events.old stack.old l v) }
    ensures fits { Fits result events.new stack.new × Kept st result }
{
    if lines.len() < 2 {
        return st;
    }
    let a = events::enter(
        events,
        stack,
        st,
        walk::node(events::CAPTION, m.start, m.end, 0, 0, 0, 0),
    );
    if a.number != 0 {
        return a;
    }
    let b = caption_lines(text, lines, events, a);
    if b.number != 0 {
        return b;
    }
    events::exit(events, stack, b, m.from, m.to)
}

pub fn table(
    text: &[u8],
    lines: &[u32],
    events: &mut [u32],
    stack: &mut [usize],
    m: Met,
    st: St,
) -> St
    requires { Fits st events.old stack.old }
    ensures by_index { (l v : List ℕ) → view result events.new stack.new l v ≡ table_of text.now m (spans_of lines.now) (view st events.old stack.old l v) }
    ensures fits { Fits result events.new stack.new × Kept st result }
{
    let a = events::enter(
        events,
        stack,
        st,
        walk::node(events::TABLE, m.start, m.end, 0, 0, 0, 0),
    );
    if a.number != 0 {
        return a;
    }
    let c = caption_line(text, lines);
    let b = caption(text, &lines[c * 2..], events, stack, m, a);
    if b.number != 0 {
        return b;
    }
    let d = cells::rows_of(text, &lines[..c * 2], events, b);
    if d.number != 0 {
        return d;
    }
    events::exit(events, stack, d, m.from, m.to)
}

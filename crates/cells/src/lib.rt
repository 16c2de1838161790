// A table's rows: cells, heads and alignments (RULES X1 to X12), each byte of a table read a fixed number of times.
#![tactic(auto)]

ghost use Rattle.std.specs.Prelude.{◌≡◌, true, false, not, List, [], ◌++◌, ℕ, ◌+◌, ◌-◌, ◌^◌, ◌≤◌, ◌<◌, length, take, get_or};
ghost use Rattle.classes.specs.Choice.{both};
ghost use Rattle.lines.specs.Lines.{span, spans_of};
ghost use Rattle.trim.specs.Trim.{part_of, trim_span};
ghost use Rattle.rows.specs.Rows.{cell_of, separator_of};
ghost use Rattle.events.specs.View.{view, Same};
ghost use Rattle.walk.specs.Table.{alignment_word, exit_alignment, past, cell_at, align_by, align_at, cell_events, cells_of, cell_word, align_cells, head_of, separate_of, row_of, rows, rows_of};
ghost use Rattle.walk.specs.Table as table;
ghost use Rattle.cells.specs.Held.{sep_of, Ends, cell_words, Aligned, Place, Held, Alike, Ready, Written, laid_of, rows_at};

use events::St;
use rows::Alignment;

// The body's word of a cell's Enter, and of its Exit, which is two events on; and that of a row's Enter and Exit (E3).
const ALIGNMENT: usize = events::BODY;

const EXIT_ALIGNMENT: usize = 2 * events::WIDTH + ALIGNMENT;

const HEAD: usize = events::BODY;

// The separator that aligns: its cells' text (s to e) and how many they are; the widest row since it, by its word and its
// cells, whose own alignments are read; and where cell `col` of the separator starts, from s.
#[derive(Clone, Copy)]
pub struct Align {
    pub s: usize,
    pub e: usize,
    pub cells: usize,
    pub row: usize,
    pub wide: usize,
    pub col: usize,
    pub cur: usize,
}

// A table's rows so far: the alignments, and the last row's word plus one (0: none) and its cells.
#[derive(Clone, Copy)]
pub struct Rows {
    pub st: St,
    pub align: Align,
    pub last: usize,
    pub cells: usize,
}

// A row's cells written: how many, whether all are separators, and whether a backtick run is left open.
#[derive(Clone, Copy)]
pub struct Laid {
    pub st: St,
    pub align: Align,
    pub cells: usize,
    pub separators: bool,
    pub unclosed: bool,
}

// ---- alignments

// The alignment of the separator's cell that starts at `cur`, 0 where none does.
fn align_first(sep: &[u8], cur: usize) -> u32
    ensures { result ≡ align_by sep.now cur (cell_of sep.now cur) }
{
    match rows::next_cell(sep, cur) {
        Err(_) => 0,
        Ok(p) => u32::from(Alignment::of(trim::trim(trim::part(sep, cur, p)))),
    }
}

// Where the cell after the one that starts at `cur` starts; at the end where there is none.
fn next_start(sep: &[u8], cur: usize) -> usize
    ensures { result ≡ past (length sep.now) (cell_of sep.now cur) }
{
    match rows::next_cell(sep, cur) {
        Err(_) => sep.len(),
        Ok(p) => p + 1,
    }
}

// The alignment of column i: in the widest row's events, or else in the separator's text, where the cursor stands.
fn lookup(text: &[u8], events: &[u32], al: Align, i: usize) -> u32
    requires { Held text.now i al events.now }
    ensures { result ≡ align_at (sep_of text.now al) i }
{
    if i < al.wide {
        let at = al.row + events::WIDTH + 3 * events::WIDTH * i;
        return events[at + ALIGNMENT];
    }
    align_first(trim::part(text, al.s, al.e), al.cur)
}

// One column on.
fn advance(text: &[u8], al: Align, i: usize) -> Align
    requires { (i < length text.now) × Place text.now i al }
    ensures { Place text.now (i + 1) result × Alike al result × (result.row ≡ al.row) × (result.wide ≡ al.wide) }
{
    if i < al.wide {
        return al;
    }
    let mut r = al;
    r.col = i + 1;
    r.cur = next_start(trim::part(text, al.s, al.e), al.cur);
    r
}

// After a row of n cells at word `here`: it is the widest, or the widest so far stays.
fn widest(al: Align, here: usize, n: usize) -> Align
    ensures { ((text evs : List ℕ) → Held text n al evs → Aligned (sep_of text al) here n evs → Held text 0 result evs) × Alike al result }
{
    if n <= al.wide {
        return al;
    }
    let mut r = al;
    r.row = here;
    r.wide = n;
    r
}

// ---- rows

// A cell of alignment v that starts at s and ends at the pipe p, its text being the span t.
fn cell(events: &mut [u32], st: St, v: u32, s: u32, t: lines::Span<usize>, p: u32) -> St
    requires { (st.words ≤ length events.old) × (t.start < 2 ^ 32) × (t.end < 2 ^ 32) × (p + 1 < 2 ^ 32) }
    ensures x_after { (text k l x : List ℕ) → t ≡ trim_span text s p → view result events.new k l x ≡ cell_events text v s p (view st events.old k l x) }
    ensures words_in_bounds { (result.words ≤ length events.new) × (result.number ≡ 0 → result.words ≡ st.words + 24) × (result.number ≡ 0 → take result.words events.new ≡ take st.words events.old ++ cell_words v s t.start t.end p) × Same st result }
{
    let a = events::push(
        events,
        st,
        walk::mark(events::ENTER, events::TABLE_CELL, s, s, v),
    );
    if a.number != 0 {
        return a;
    }
    let b = walk::inline(events, a, t.start as u32, t.end as u32);
    if b.number != 0 {
        return b;
    }
    events::push(
        events,
        b,
        walk::mark(events::EXIT, events::TABLE_CELL, p, p + 1, v),
    )
}

// Whether this cell is a separator, and those before it.
fn also(separators: bool, cell: &[u8]) -> bool
    ensures { result ≡ both separators (separator_of cell.now) }
{
    if !separators {
        return false;
    }
    rows::is_separator(cell)
}

// The cells of a row from s to e, after its first pipe.
fn cells(text: &[u8], events: &mut [u32], st: St, align: Align, s: usize, e: usize) -> Laid
    requires { (st.words ≤ length events.old) × (8 ≤ st.words) × (s ≤ e) × (e < 2 ^ 32) × Held text.now 0 align (take st.words events.old) }
    ensures by_index { (k l v : List ℕ) → laid_of result events.new k l v ≡ cells_of text.now (sep_of text.now align) (part_of text.now s e) s (length (part_of text.now s e)) 0 (table.cells (view st events.old k l v) 0 true false) }
    ensures words_in_bounds { (result.st.words ≤ length events.new) × (result.st.number ≡ 0 → take st.words events.new ≡ take st.words events.old) × Same st result.st × (result.st.number ≡ 0 → Written text.now (part_of text.now s e) align (st.words - 8) result (take result.st.words events.new)) }
{
    let row = trim::part(text, s, e);
    let mut b = st;
    let mut al = align;
    let mut i: usize = 0;
    let mut separators = true;
    let mut at: usize = 0;
    while at < row.len() {
        match rows::next_cell(row, at) {
            Err(end) => {
                return Laid {
                    st: b,
                    align: al,
                    cells: i,
                    separators,
                    unclosed: end.unclosed,
                };
            }
            Ok(p) => {
                let w = b.words;
                let v = lookup(text, &events[..w], al, i);
                let t = trim::trim_span(text, s + at, s + p);
                let from = t.start;
                let to = t.end;
                separators = also(separators, trim::part(text, from, to));
                let c = cell(events, b, v, (s + at) as u32, t, (s + p) as u32);
                if c.number != 0 {
                    return Laid {
                        st: c,
                        align: al,
                        cells: i + 1,
                        separators,
                        unclosed: false,
                    };
                }
                al = advance(text, al, i);
                b = c;
                i += 1;
                at = p + 1;
            }
        }
    }
    Laid {
        st: b,
        align: al,
        cells: i,
        separators,
        unclosed: false,
    }
}

// ---- separators

// The first n cells of the row at word `row` get the separator's alignments; the cursor after them.
fn realign(text: &[u8], events: &mut [u32], st: St, al: Align, row: usize, n: usize) -> usize
    requires { (st.words ≤ length events.old) × (cell_word row n ≤ st.words) }
    ensures { ((k l v : List ℕ) → view st events.new k l v ≡ align_cells (sep_of text.now al) row 0 n (view st events.old k l v)) × (result ≡ cell_at (sep_of text.now al) n) }
{
    let sep = trim::part(text, al.s, al.e);
    let mut cur: usize = 0;
    let mut i: usize = 0;
    while i < n {
        let v = align_first(sep, cur);
        let at = row + events::WIDTH + 3 * events::WIDTH * i;
        events::patch(events, st, at + ALIGNMENT, v);
        events::patch(events, st, at + EXIT_ALIGNMENT, v);
        cur = next_start(sep, cur);
        i += 1;
    }
    cur
}

fn most(a: usize, b: usize) -> usize
    ensures { (a ≤ result) × (b ≤ result) }
{
    if a < b {
        return b;
    }
    a
}

// The row of n cells at word `row` becomes the head of what follows: it is the widest row. Its cells are realigned as far as
// the separator before, of `old` cells, or the new one reaches; beyond both every alignment is none already.
fn head(
    text: &[u8],
    events: &mut [u32],
    st: St,
    al: Align,
    old: usize,
    row: usize,
    n: usize,
) -> Align
    requires { (st.words ≤ length events.old) × (cell_word row n + 8 ≤ st.words) × Ends (sep_of text.now al) al.cells × ((j : ℕ) → old ≤ j → j < n → (get_or (take st.words events.old) (cell_word row j + alignment_word) 0 ≡ 0) × (get_or (take st.words events.old) (cell_word row j + exit_alignment) 0 ≡ 0)) }
    ensures by_index { (k l v : List ℕ) → view st events.new k l v ≡ head_of (sep_of text.now al) row n (view st events.old k l v) }
    ensures held { Held text.now 0 result (take st.words events.new) × Alike al result × Aligned (sep_of text.now al) row n (take st.words events.new) }
{
    let reach = walk::least(n, most(old, al.cells));
    let cur = realign(text, events, st, al, row, reach);
    events::patch(events, st, row + HEAD, 1);
    let end = row + events::WIDTH + 3 * events::WIDTH * n;
    events::patch(events, st, end + HEAD, 1);
    Align {
        s: al.s,
        e: al.e,
        cells: al.cells,
        row,
        wide: n,
        col: n,
        cur,
    }
}

// A separator row from s to e with n cells is dropped: it aligns what follows and makes the row before it a head.
fn separate(
    text: &[u8],
    events: &mut [u32],
    r: Rows,
    here: usize,
    s: usize,
    e: usize,
    n: usize,
) -> Rows
    requires { (r.st.words ≤ length events.old) × (here ≤ r.st.words) × Ends (part_of text.now s e) n × Ready text.now r (take here events.old) }
    ensures by_index { (k l v : List ℕ) → rows_at text.now result events.new k l v ≡ separate_of (part_of text.now s e) here (rows_at text.now r events.old k l v) }
    ensures words_in_bounds { (result.st.words ≤ length events.new) × Same r.st result.st × Ready text.now result (take result.st.words events.new) }
{
    let st = r.st;
    let kept = events::cut(st, here);
    let al = Align {
        s,
        e,
        cells: n,
        row: 0,
        wide: 0,
        col: 0,
        cur: 0,
    };
    if r.last == 0 {
        return Rows {
            st: kept,
            align: al,
            last: 0,
            cells: 0,
        };
    }
    let old = r.align.cells;
    let align = head(text, events, kept, al, old, r.last - 1, r.cells);
    Rows {
        st: kept,
        align,
        last: r.last,
        cells: r.cells,
    }
}

// ---- rows

// Whether a row is dropped: all its cells are separators, and no backtick run is open.
fn is_dropped(separators: bool, unclosed: bool) -> bool
    ensures { result ≡ both separators (not unclosed) }
{
    if !separators {
        return false;
    }
    !unclosed
}

// One row, its line trimmed from s to e.
fn row(text: &[u8], events: &mut [u32], r: Rows, s: usize, e: usize) -> Rows
    requires { (r.st.words ≤ length events.old) × (s < e) × (e < 2 ^ 32) × Ready text.now r (take r.st.words events.old) }
    ensures by_index { (k l v : List ℕ) → rows_at text.now result events.new k l v ≡ row_of text.now (span s e) (rows_at text.now r events.old k l v) }
    ensures words_in_bounds { (result.st.words ≤ length events.new) × Same r.st result.st × (result.st.number ≡ 0 → Ready text.now result (take result.st.words events.new)) }
{
    let st = r.st;
    let align = r.align;
    let here = st.words;
    let a = events::push(
        events,
        st,
        walk::mark(
            events::ENTER,
            events::TABLE_ROW,
            s as u32,
            (s + 1) as u32,
            0,
        ),
    );
    let mut out = r;
    out.st = a;
    if a.number != 0 {
        return out;
    }
    let c = cells(text, events, a, align, s + 1, e);
    let b = c.st;
    out.st = b;
    if b.number != 0 {
        return out;
    }
    let n = c.cells;
    if is_dropped(c.separators, c.unclosed) {
        return separate(text, events, out, here, s + 1, e, n);
    }
    let z = events::push(
        events,
        b,
        walk::mark(events::EXIT, events::TABLE_ROW, e as u32, e as u32, 0),
    );
    let laid = c.align;
    let al = widest(laid, here, n);
    Rows {
        st: z,
        align: al,
        last: here + 1,
        cells: n,
    }
}

// The rows, up to the first blank line.
pub fn rows_of(text: &[u8], lines: &[u32], events: &mut [u32], st: St) -> St
    requires { st.words ≤ length events.old }
    ensures by_index { (k l v : List ℕ) → view result events.new k l v ≡ (rows_of text.now (spans_of lines.now) (rows (view st events.old k l v) [] 0 0)).st }
    ensures words_in_bounds { (result.words ≤ length events.new) × Same st result }
{
    let n = lines.len() / 2;
    let mut r = Rows {
        st,
        align: Align {
            s: 0,
            e: 0,
            cells: 0,
            row: 0,
            wide: 0,
            col: 0,
            cur: 0,
        },
        last: 0,
        cells: 0,
    };
    let mut k: usize = 0;
    while k < n {
        let t = trim::trim_span(text, lines[2 * k] as usize, lines[2 * k + 1] as usize);
        if t.start == t.end {
            return r.st;
        }
        let next = row(text, events, r, t.start, t.end);
        let now = next.st;
        if now.number != 0 {
            return now;
        }
        r = next;
        k += 1;
    }
    r.st
}

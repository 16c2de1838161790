// Table rows: where the next cell ends, which cells are separators, and how a separator aligns (RULES X2 to X7, X11).
#![tactic(auto)]

ghost use Rattle.std.specs.Prelude.{◌≡◌, true, false, ◌+◌, ◌≤◌, ◌<◌, length, ◌==◌, get_or, drop, position, MatchOption};
ghost use Rattle.rows.specs.Rows.{ticks_of, hides_at, is_sign, row_end, cell_from, cell_of, dashes_of, dash_end, separator_of, alignment_num, alignment_of};

use classes;

// No more cells: the row ends, with a backtick run left open or not.
#[derive(Clone, Copy, PartialEq, Eq, Debug)]
pub struct RowEnd {
    pub unclosed: bool,
}

// How a separator aligns its column.
#[derive(Clone, Copy, PartialEq, Eq, Debug)]
pub enum Alignment {
    None,
    Left,
    Right,
    Centre,
}

// How many backticks stand at the front. Mostly few do, so sixteen are compared at a time only where sixteen stand there.
fn ticks(row: &[u8]) -> usize
    ensures { (result ≡ ticks_of row.now) × (result ≤ length row.now) }
{
    let n = row.iter().take(16).take_while(|b| **b == b'`').count();
    if n < 16 {
        return n;
    }
    classes::find(row, |b| b != b'`').unwrap_or(row.len())
}

// Where the next backtick stands.
fn next_tick(s: &[u8]) -> Option<usize>
    ensures { result ≡ position (λ b. b == 96) s.now }
{
    s.iter().position(|b| *b == b'`')
}

// From the backtick run at i, past the run that closes it, which has as many backticks; none where the row leaves it open.
fn past_run(row: &[u8], i: usize) -> Option<usize>
    requires { (i < length row.now) × (get_or row.now i 0 ≡ 96) }
    ensures { MatchOption result (cell_from 0 0 i (drop i row.now) ≡ row_end true) (λ k. (i < k) × (k ≤ length row.now) × (cell_from 0 0 i (drop i row.now) ≡ cell_from 0 0 k (drop k row.now))) }
{
    let n = ticks(&row[i..]);
    let mut k = i + n;
    // a step is a run of backticks, whose length only the row says
    while let Some(t) = next_tick(&row[k..]) {
        k += t;
        let m = ticks(&row[k..]);
        k += m;
        if m == n {
            return Some(k);
        }
    }
    None
}

// Whether the byte at i is a backslash that hides the next.
#[tactic(auto, unfolding(crate::specs::Rows::hides_at, classes::specs::Classes::is_punct, classes::specs::Classes::within))]
fn hides(row: &[u8], i: usize) -> bool
    requires { i ≤ length row.now }
    ensures { result ≡ hides_at (drop i row.now) }
{
    match &row[i..] {
        [b'\\', next, ..] => classes::is_punct(*next),
        _ => false,
    }
}

// A byte that a row reads by itself: a backtick, a pipe or a backslash. With `||` or `matches!` it would be tested by a table
// of bits, and then sixteen bytes are not compared at a time.
#[tactic(auto, unfolding(crate::specs::Rows::is_sign))]
fn is_sign(b: u8) -> bool
    ensures { result ≡ is_sign b }
{
    (b == b'`') | (b == b'|') | (b == b'\\')
}

// The next such byte, from i on, which is outside backtick runs; none up to the row's end. Two bytes are read one by one before
// sixteen are compared at a time, since signs often stand close together.
fn next_sign(row: &[u8], i: usize) -> Option<usize>
    ensures { MatchOption result (cell_from 0 0 i (drop i row.now) ≡ row_end false) (λ k. (i ≤ k) × (k < length row.now) × (is_sign (get_or row.now k 0) ≡ true) × (cell_from 0 0 i (drop i row.now) ≡ cell_from 0 0 k (drop k row.now))) }
{
    let rest = row.get(i..)?;
    match rest {
        [a, ..] if is_sign(*a) => Some(i),
        [_, b, ..] if is_sign(*b) => Some(i + 1),
        _ => Some(i + classes::find(rest, is_sign)?),
    }
}

// Where the next cell ends: its pipe, from `at` on, which is outside backtick runs.
pub fn next_cell(row: &[u8], at: usize) -> Result<usize, RowEnd>
    ensures { result ≡ cell_of row.now at }
{
    let mut i = at;
    // a step is a sign, a hidden byte or a whole verbatim
    while let Some(k) = next_sign(row, i) {
        i = match row[k] {
            b'\\' if hides(row, k) => k + 2,
            b'\\' => k + 1,
            b'|' => return Ok(k),
            _ => past_run(row, k).ok_or(RowEnd { unclosed: true })?,
        };
    }
    Err(RowEnd { unclosed: false })
}

// How many dashes stand at the front.
fn dash_run(s: &[u8]) -> usize
    ensures { (result ≤ length s.now) × (dashes_of s.now ≡ dash_end s.now result) }
{
    classes::find(s, |b| b != b'-').unwrap_or(s.len())
}

// Whether only dashes stand here, and at most a colon after them.
#[tactic(auto, unfolding(crate::specs::Rows::dash_end))]
fn dashes(s: &[u8]) -> bool
    ensures { result ≡ dashes_of s.now }
{
    matches!(&s[dash_run(s)..], [] | [b':'])
}

// Whether a trimmed cell is a separator: an optional colon, one or more dashes, an optional colon.
#[tactic(auto, unfolding(crate::specs::Rows::separator_of, crate::specs::Rows::dashed))]
pub fn is_separator(cell: &[u8]) -> bool
    ensures { result ≡ separator_of cell.now }
{
    match cell {
        [b'-', rest @ ..] => dashes(rest),
        [b':', b'-', rest @ ..] => dashes(rest),
        _ => false,
    }
}

impl Alignment {
    // How a trimmed separator cell aligns.
    #[tactic(auto, unfolding(crate::specs::Rows::alignment_of))]
    pub fn of(cell: &[u8]) -> Alignment
        ensures { alignment_num result ≡ alignment_of cell.now }
    {
        match cell {
            [b':'] | [b':', .., b':'] => Alignment::Centre,
            [b':', ..] => Alignment::Left,
            [.., b':'] => Alignment::Right,
            _ => Alignment::None,
        }
    }
}

// The number that an event's body holds (RULES E8).
impl From<Alignment> for u32 {
    ghost from_gives = { λ x n. n ≡ alignment_num x };

    fn from(x: Alignment) -> u32 {
        match x {
            Alignment::None => 0,
            Alignment::Left => 1,
            Alignment::Right => 2,
            Alignment::Centre => 3,
        }
    }
}

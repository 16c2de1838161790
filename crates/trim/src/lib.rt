// Trimming and labels: parts of the lent text, and offsets by the lengths of the parts (RULES G6, G7, K7, K8).
#![tactic(auto)]

ghost use Rattle.std.specs.Prelude.{◌≡◌, ◌≤◌, ℕ, Bool, true, false, MatchOption, length};
ghost use Rattle.trim.specs.Trim.{front, lead, is_gap, indent, kept, part_of, trim_start, trim_end, trim_both, trim_span};
ghost use Rattle.trim.specs.Label.{close_at, defines_of, label_start, label_of};

use classes;
use lines::Span;

// How many bytes at the front pass a test, which is to say f of each byte.
pub fn front<F: Fn(u8) -> bool>(s: &[u8], test: F) -> usize
    requires { F.IsAlwaysCallable test }
    ensures value { (f : ℕ → Bool) → ((x : ℕ) (r : Bool) → F.post test x r → r ≡ f x) → result ≡ front f s.now }
    ensures bound { result ≤ length s.now }
{
    s.iter().position(|b| !test(*b)).unwrap_or(s.len())
}

// A line's indent: leading whitespace without newlines.
pub fn indent_of(s: &[u8]) -> usize
    ensures { (result ≡ indent s.now) × (result ≤ length s.now) }
{
    front(s, is_gap)
}

// Whitespace other than newline.
pub fn is_gap(b: u8) -> bool
    ensures { result ≡ is_gap b }
{
    b != b'\n' && classes::is_space(b)
}

// How many bytes are left when the whitespace at the end is taken off.
fn kept_of(s: &[u8]) -> usize
    ensures { (result ≡ kept s.now) × (result ≤ length s.now) }
{
    match classes::rfind(s, |b| !classes::is_space(b)) {
        Some(last) => last + 1,
        None => 0,
    }
}

// The part of s from a up to e, as far as s reaches.
pub fn part(s: &[u8], a: usize, e: usize) -> &[u8]
    ensures { result.now ≡ part_of s.now a e }
{
    s.get(a..e.min(s.len())).unwrap_or(&[])
}

pub fn trim_start(s: &[u8]) -> &[u8]
    ensures { result.now ≡ trim_start s.now }
{
    let n = front(s, classes::is_space);
    &s[n..]
}

pub fn trim_end(s: &[u8]) -> &[u8]
    ensures { result.now ≡ trim_end s.now }
{
    let n = kept_of(s);
    &s[..n]
}

// The front first.
pub fn trim(s: &[u8]) -> &[u8]
    ensures { result.now ≡ trim_both s.now }
{
    let front = trim_start(s);
    trim_end(front)
}

// The part from a up to e, trimmed, as offsets.
pub fn trim_span(s: &[u8], a: usize, e: usize) -> Span<usize>
    ensures { result ≡ trim_span s.now a e }
{
    let whole = part(s, a, e);
    let front = trim_start(whole);
    let start = a + (whole.len() - front.len());
    let end = start + trim_end(front).len();
    Span { start, end }
}

// Where the first `]` stands, if it closes a definition's label: `[` stands in front, and `:` behind it.
fn close_of(t: &[u8]) -> Option<usize>
    ensures { MatchOption result (defines_of t.now ≡ false) (λ c. (defines_of t.now ≡ true) × (c ≡ close_at t.now)) }
{
    if classes::byte_at(t, 0) != b'[' {
        return None;
    }
    let close = lines::find(t, b']')?;
    if classes::byte_at(t, close + 1) == b':' {
        Some(close)
    } else {
        None
    }
}

// Whether t is a definition's line from its `[` on: the first `]` is followed by `:`.
pub fn defines(t: &[u8]) -> bool
    ensures { result ≡ defines_of t.now }
{
    close_of(t).is_some()
}

// Where a label starts: a footnote's `^` is dropped.
pub fn label_start(t: &[u8]) -> usize
    ensures { result ≡ label_start t.now }
{
    if classes::byte_at(t, 1) == b'^' { 2 } else { 1 }
}

// The label of `[label]:` or `[^label]:`, and an empty part where t is no definition.
pub fn label(t: &[u8]) -> &[u8]
    ensures { result.now ≡ label_of t.now }
{
    match close_of(t) {
        Some(close) => part(t, label_start(t), close),
        None => &[],
    }
}

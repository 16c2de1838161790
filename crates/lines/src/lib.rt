// The lines of a text, two words a line: where it starts, and where it ends (RULES G5, R2).
#![tactic(auto)]

ghost use Rattle.std.specs.Prelude.{◌≡◌, ◌∷◌, [], ◌++◌, ◌+◌, ◌*◌, ◌^◌, ◌≤◌, ◌<◌, MatchOption, get_or, length, drop};
ghost use Rattle.std.proofs.lemmas.List.Edits.{sets};
ghost use Rattle.lines.specs.Lines.{span, newlines_of, place_of, lines_of, words_of, split_of, split_words};

use classes;
use refusals::Refusal;

// A part of a text, from its start up to its end.
#[derive(Clone, Copy, PartialEq, Eq, Debug)]
pub struct Span<T> {
    pub start: T,
    pub end: T,
}

// How many newlines stand in fewer than 256 bytes. The sum has one byte, so that sixteen bytes are compared at a time: `filter` and `count` take 20 times as long.
fn newlines(s: &[u8]) -> u8
    requires { length s.now < 256 }
    ensures { result ≡ newlines_of s.now }
{
    let mut n: u8 = 0;
    for b in s {
        if *b == b'\n' {
            n += 1;
        }
    }
    n
}

// How many newlines stand in a text, 192 bytes at a time.
fn count_newlines(text: &[u8]) -> usize
    ensures { (result ≡ newlines_of text.now) × (result ≤ length text.now) }
{
    let mut count: usize = 0;
    for part in text.chunks(192) {
        count += usize::from(newlines(part));
    }
    count
}

// How many lines a text has: its newlines, and one more if bytes follow the last.
pub fn count_lines(text: &[u8]) -> usize
    ensures { result ≡ length (lines_of text.now) }
{
    let count = count_newlines(text);
    match text.last() {
        Some(b) if *b != b'\n' => count + 1,
        _ => count,
    }
}

// The place of the first b.
pub fn find(s: &[u8], b: u8) -> Option<usize>
    ensures { MatchOption result (place_of b s.now ≡ length s.now) (λ k. (k ≡ place_of b s.now) × (k < length s.now)) }
{
    classes::find(s, |x| x == b)
}

// The line whose words are the k-th two.
pub fn line_at(words: &[u32], k: usize) -> Span<u32>
    requires { k * 2 + 2 ≤ length words.now }
    ensures { result ≡ span (get_or words.now (k * 2) 0) (get_or words.now (k * 2 + 1) 0) }
{
    Span {
        start: words[k * 2],
        end: words[k * 2 + 1],
    }
}

fn put_line(words: &mut [u32], n: usize, line: Span<u32>)
    requires { 2 * n + 2 ≤ length words.old }
    ensures { words.new ≡ sets words.old (2 * n) (line.start ∷ line.end ∷ []) }
{
    let at = 2 * n;
    words[at] = line.start;
    words[at + 1] = line.end;
}

fn fill_lines(text: &[u8], words: &mut [u32])
    requires { (length text.now < 2 ^ 32) × (2 * length (lines_of text.now) ≤ length words.old) }
    ensures { words.new ≡ words_of (lines_of text.now) ++ drop (2 * length (lines_of text.now)) words.old }
{
    let mut n: usize = 0;
    let mut s: usize = 0;
    // std's `split_inclusive` would look at the bytes one by one
    while let Some(k) = find(&text[s..], b'\n') {
        let next = s + k + 1;
        let line = Span {
            start: s as u32,
            end: next as u32,
        };
        put_line(words, n, line);
        n += 1;
        s = next;
    }
    if s < text.len() {
        let line = Span {
            start: s as u32,
            end: text.len() as u32,
        };
        put_line(words, n, line);
    }
}

// Splits a text of at most `limit` bytes into lines, in the first words lent, and answers how many; what is refused leaves all words as found.
pub fn split_lines(text: &[u8], limit: u32, words: &mut [u32]) -> Result<usize, Refusal>
    ensures { (result ≡ split_of text.now limit (length words.old)) × (words.new ≡ split_words text.now limit words.old) }
{
    if (limit as usize) < text.len() {
        return Err(Refusal::TextTooLong);
    }
    let n = count_lines(text);
    if words.len() / 2 < n {
        return Err(Refusal::LinesFull);
    }
    fill_lines(text, words);
    Ok(n)
}

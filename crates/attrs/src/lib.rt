// The attribute machine (RULES Q): the next state from a constant table of tables, one row a state.
#![tactic(auto)]

ghost use Rattle.std.specs.Prelude.{◌≡◌, true, ℕ, ◌+◌, ◌<◌, ◌≤◌, length, drop};
ghost use Rattle.attrs.specs.Machine.{next_of, sign_class, class_of, step_of, takes_names, is_quoted, valid_from, valid_of};

use classes;

// The states by their numbers (Q2).
pub const START: usize = 0;

pub const DONE: usize = 16;

pub const INVALID: usize = 17;

// Columns: `{ } . # % = " \`, newline, other whitespace, name byte, other.
const NEXT: [[u8; 12]; 18] = [
    [1, 17, 17, 17, 17, 17, 17, 17, 17, 17, 17, 17], // Start
    [17, 16, 5, 7, 2, 17, 17, 17, 1, 1, 9, 17], // Whitespace
    [3, 16, 3, 3, 1, 3, 3, 3, 4, 3, 3, 3], // CommentFirst
    [3, 16, 3, 3, 1, 3, 3, 3, 4, 3, 3, 3], // Comment
    [3, 16, 3, 3, 1, 3, 3, 3, 4, 3, 3, 3], // CommentNewline
    [17, 17, 17, 17, 17, 17, 17, 17, 17, 17, 6, 17], // ClassFirst
    [17, 16, 17, 17, 17, 17, 17, 17, 1, 1, 6, 17], // Class
    [17, 17, 17, 17, 17, 17, 17, 17, 17, 17, 8, 17], // IdentifierFirst
    [17, 16, 17, 17, 17, 17, 17, 17, 1, 1, 8, 17], // Identifier
    [17, 17, 17, 17, 17, 10, 17, 17, 17, 17, 9, 17], // Key
    [17, 17, 17, 17, 17, 17, 12, 17, 17, 17, 11, 17], // ValueFirst
    [17, 16, 17, 17, 17, 17, 17, 17, 1, 1, 11, 17], // Value
    [12, 12, 12, 12, 12, 12, 1, 13, 14, 12, 12, 12], // ValueQuoted
    [12, 12, 12, 12, 12, 12, 12, 12, 14, 12, 12, 12], // ValueEscape
    [15, 15, 15, 15, 15, 15, 1, 15, 14, 15, 15, 15], // ValueNewline
    [15, 15, 15, 15, 15, 15, 1, 15, 14, 15, 15, 15], // ValueContinued
    [17, 17, 17, 17, 17, 17, 17, 17, 17, 17, 17, 17], // Done
    [17, 17, 17, 17, 17, 17, 17, 17, 17, 17, 17, 17], // Invalid
];

fn wide(x: u8) -> usize
    ensures { result ≡ x }
{
    x as usize
}

fn next(s: usize, c: usize) -> usize
    requires { (s < 18) × (c < 12) }
    ensures { (result ≡ next_of s c) × (result < 18) }
{
    wide(NEXT[s][c])
}

// The machine's class of a byte that is no name byte.
fn sign_class(b: u8) -> usize
    ensures { (result ≡ sign_class b) × (result < 12) }
{
    match b {
        b'{' => 0,
        b'}' => 1,
        b'.' => 2,
        b'#' => 3,
        b'%' => 4,
        b'=' => 5,
        b'"' => 6,
        b'\\' => 7,
        b'\n' => 8,
        _ => {
            if classes::is_space(b) {
                return 9;
            }
            11
        }
    }
}

// The machine's class of a byte.
pub fn class_of(b: u8) -> usize
    ensures { (result ≡ class_of b) × (result < 12) }
{
    if classes::is_name(b) {
        return 10;
    }
    sign_class(b)
}

// The state after a byte; a number that is no state's is Invalid.
pub fn step(state: usize, b: u8) -> usize
    ensures { (result ≡ step_of state b) × (result < 18) }
{
    if 18 <= state {
        return INVALID;
    }
    next(state, class_of(b))
}

// How many name bytes stand at the front.
fn name_run(src: &[u8]) -> usize
    ensures { (result ≤ length src.now) × ((s n : ℕ) → takes_names s ≡ true → valid_from s n src.now ≡ valid_from s (n + result) (drop result src.now)) }
{
    let mut n: usize = 0;
    while n < src.len() {
        if !classes::is_name(src[n]) {
            return n;
        }
        n += 1;
    }
    n
}

// A byte that goes on in a quoted value.
fn is_quoted(b: u8) -> bool
    ensures { result ≡ is_quoted b }
{
    if b == b'"' {
        return false;
    }
    if b == b'\\' {
        return false;
    }
    b != b'\n'
}

// How many such bytes stand at the front.
fn quoted_run(src: &[u8]) -> usize
    ensures { (result ≤ length src.now) × ((n : ℕ) → valid_from 12 n src.now ≡ valid_from 12 (n + result) (drop result src.now)) }
{
    let mut n: usize = 0;
    while n < src.len() {
        if !is_quoted(src[n]) {
            return n;
        }
        n += 1;
    }
    n
}

// How many bytes at the front leave the machine in its state: a class, an identifier, a key, a value or a quoted one goes on.
fn stay(state: usize, src: &[u8]) -> usize
    ensures { (result ≤ length src.now) × ((n : ℕ) → valid_from state n src.now ≡ valid_from state (n + result) (drop result src.now)) }
{
    match state {
        6 => name_run(src),
        8 => name_run(src),
        9 => name_run(src),
        11 => name_run(src),
        12 => quoted_run(src),
        _ => 0,
    }
}

// How many bytes the set of attributes at the start of `src` takes, and 0 where none is.
pub fn valid(src: &[u8]) -> usize
    ensures { (result ≡ valid_of src.now) × (result ≤ length src.now) }
{
    // bound once: each read of the constant itself would write it to the stack again
    let table = NEXT;
    let mut n: usize = 0;
    let mut state: usize = START;
    while n < src.len() {
        n += stay(state, &src[n..]);
        if n == src.len() {
            return 0;
        }
        state = wide(table[state][class_of(src[n])]);
        n += 1;
        if state == DONE {
            return n;
        }
        if state == INVALID {
            return 0;
        }
    }
    0
}

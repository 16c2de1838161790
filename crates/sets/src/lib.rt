// Sets of attributes opened: elements (classes, ids, pairs, comments) and the pieces of their values, by the attribute machine (RULES J1 to J5, J10 to J14).
#![tactic(auto)]

ghost use Rattle.std.specs.Prelude.{◌≡◌, true, List, map, [], ◌∷◌, ◌++◌, ℕ, ◌+◌, ◌-◌, ◌*◌, ◌^◌, ◌≤◌, ◌<◌, length, take, drop, replicate, eqb, OnOk, IfOk, MatchOption};
ghost use Rattle.std.proofs.lemmas.List.Edits.{sets};
ghost use Rattle.sets.specs.Given as given;
ghost use Rattle.sets.specs.Opened.{hold_in, hold_all, open_of};
ghost use Rattle.sets.specs.Layout.{element_in, piece_in, words_of};
ghost use Rattle.sets.specs.Words.{word_of, names, listed_as, spanned_as, answered};
ghost use Rattle.sets.specs.View.{held_in, held_by, Same, Onward, is_owned, owns, complete_by, outcome_of};

mod elements;
mod reader;

use attrs;
pub use elements::Elements;
use lines::Span;
use reader::Reader;
use refusals::{Refusal, Refused};
use trim;

// The words of an element.
pub const ELEMENT: usize = 5;

// The words of a piece: its span.
pub const PIECE: usize = 2;

// The kinds of elements.
#[derive(Clone, Copy, PartialEq, Eq, Debug)]
pub enum Kind {
    Class,
    Id,
    Pair,
    Comment,
    // a class after the first, whose pieces join the first one's; `pairs` alone answers it
    Further,
}

impl From<Kind> for u64 {
    ghost from_gives = { λ x n. n ≡ word_of x };

    fn from(x: Kind) -> u64 {
        match x {
            Kind::Class => 1,
            Kind::Id => 2,
            Kind::Pair => 3,
            Kind::Comment => 4,
            Kind::Further => 5,
        }
    }
}

impl TryFrom<u64> for Kind {
    type Error = Refusal;

    ghost try_from_gives = { names };

    fn try_from(word: u64) -> Result<Kind, Refusal> {
        match word {
            1 => Ok(Kind::Class),
            2 => Ok(Kind::Id),
            3 => Ok(Kind::Pair),
            4 => Ok(Kind::Comment),
            5 => Ok(Kind::Further),
            _ => Err(Refusal::NotListed),
        }
    }
}

// An element as it stands in five words: its kind's, its key's span (empty but for a pair's), which ends where the element is known, its first piece, and the
// first that is no longer its own. A kind that is read may be any word, as the definitions have it.
#[derive(Clone, Copy, PartialEq, Eq, Debug)]
pub struct Element {
    pub kind: u64,
    pub key: Span<u64>,
    pub first: u64,
    pub past: u64,
}

// A set that was opened: how many bytes were lent, and how many elements it has.
#[derive(Clone, Copy, PartialEq, Eq, Debug)]
pub struct Opened {
    pub position: u64,
    pub count: u64,
}

pub fn element_at(elements: &[u64], i: usize) -> Element
    requires { i * 5 + 5 ≤ length elements.now }
    ensures { listed_as result ≡ element_in (drop (i * 5) elements.now) }
{
    let at = i * ELEMENT;
    Element {
        kind: elements[at],
        key: Span {
            start: elements[at + 1],
            end: elements[at + 2],
        },
        first: elements[at + 3],
        past: elements[at + 4],
    }
}

pub fn put_element(elements: &mut [u64], at: usize, e: Element)
    requires { at + 5 ≤ length elements.old }
    ensures { elements.new ≡ sets elements.old at (words_of (listed_as e ∷ [])) }
{
    elements[at..at + ELEMENT].copy_from_slice(&[e.kind, e.key.start, e.key.end, e.first, e.past]);
}

impl Element {
    pub fn is(&self, kind: Kind) -> bool
        ensures { result ≡ eqb self.now.kind (word_of kind) }
    {
        self.kind == u64::from(kind)
    }
}

impl Elements<'_> {
    pub fn get(&self, i: usize) -> Option<Element>
        ensures { MatchOption result (self.now.count ≤ i) (λ e. (i < self.now.count) × (listed_as e ≡ element_in (drop (i * 5) self.now.words.now))) }
    {
        if self.count <= i {
            return None;
        }
        Some(element_at(self.words, i))
    }
}

pub fn piece_at(pieces: &[u64], j: usize) -> Span<u64>
    requires { j * 2 + 2 ≤ length pieces.now }
    ensures { spanned_as result ≡ piece_in (drop (j * 2) pieces.now) }
{
    let at = j * PIECE;
    Span {
        start: pieces[at],
        end: pieces[at + 1],
    }
}

// Whether the machine is still in the same part of an element: an escape is part of its value.
fn stays(s: usize, t: usize) -> bool
    ensures { result ≡ given.stays s t }
{
    s == t || t == 13 || s == 13
}

// Where the next byte starts from: a complete set may have another behind it.
fn onward(t: usize) -> usize
    ensures { result ≡ given.onward t }
{
    if t == attrs::DONE { attrs::START } else { t }
}

// Whether a set is complete and no other stands at p.
fn halts(set: &[u8], t: usize, p: usize) -> bool
    requires { p ≤ length set.now }
    ensures { result ≡ given.halts t (drop p set.now) }
{
    t == attrs::DONE && set.get(p).copied().unwrap_or(0) != b'{'
}

impl<'a> Reader<'a> {
    fn refused(&self, why: Refusal) -> Refused
        ensures { result ≡ record { why = why; at = self.now.at } }
    {
        Refused {
            why,
            at: self.at as u64,
        }
    }

    // An element begins, its key from a up to the byte then read.
    fn begin_element(&mut self, kind: Kind, a: usize) -> Result<(), Refused>
        ensures holds { (k : given.Kind) → given.kind_num k ≡ word_of kind → held_by self.new result ≡ hold_in (length self.old.elements.now) (length self.old.pieces.now) self.old.at (given.Element k a self.old.at) (held_in self.old) }
        ensures same { Same self.old self.new }
        ensures counted { OnOk result (self.new.count ≡ self.old.count + 1) }
    {
        if self.elements.len() - self.count * ELEMENT < ELEMENT {
            return Err(self.refused(Refusal::ElementsFull));
        }
        let next = self.parts as u64;
        let begun = Element {
            kind: kind.into(),
            key: Span {
                start: a as u64,
                end: self.at as u64,
            },
            first: next,
            past: next,
        };
        put_element(self.elements, self.count * ELEMENT, begun);
        self.count += 1;
        Ok(())
    }

    // A piece of the last element's value, from a up to e.
    fn add_piece(&mut self, a: usize, e: usize) -> Result<(), Refused>
        requires { 1 ≤ self.old.count }
        ensures holds { held_by self.new result ≡ hold_in (length self.old.elements.now) (length self.old.pieces.now) self.old.at (given.Piece a e) (held_in self.old) }
        ensures same { Same self.old self.new }
    {
        let at = self.parts * PIECE;
        if self.pieces.len() - at < PIECE {
            return Err(self.refused(Refusal::ElementsFull));
        }
        self.pieces[at..at + PIECE].copy_from_slice(&[a as u64, e as u64]);
        self.elements[self.count * ELEMENT - 1] = (self.parts + 1) as u64;
        self.parts += 1;
        Ok(())
    }

    // An element whose value is one piece, from where it began up to the byte then read.
    fn add_single(&mut self, kind: Kind) -> Result<(), Refused>
        ensures holds { (k : given.Kind) → given.kind_num k ≡ word_of kind → held_by self.new result ≡ hold_all (length self.old.elements.now) (length self.old.pieces.now) (map (given.told self.old.at) (given.Element k self.old.at self.old.at ∷ given.Piece self.old.from self.old.at ∷ [])) (held_in self.old) }
        ensures same { Same self.old self.new }
    {
        self.begin_element(kind, self.at)?;
        self.add_piece(self.from, self.at)
    }

    // What the machine leaves behind as it goes to another part (J5, J11).
    fn leave(&mut self) -> Result<(), Refused>
        requires { (is_owned self.old.state ≡ true → 1 ≤ self.old.count) × (self.old.from ≤ self.old.at) × (self.old.at < 2 ^ 63) }
        ensures holds { held_by self.new result ≡ hold_all (length self.old.elements.now) (length self.old.pieces.now) (map (given.told self.old.at) (given.left_by self.old.state self.old.from self.old.at)) (held_in self.old) }
        ensures same { Same self.old self.new }
    {
        let a = self.from;
        let p = self.at;
        match self.state {
            2 => self.begin_element(Kind::Comment, p),
            3 | 11 | 15 => self.add_piece(a, p),
            4 => self.add_piece(a, a + 1),
            6 => self.add_single(Kind::Class),
            8 => self.add_single(Kind::Id),
            9 => self.begin_element(Kind::Pair, a),
            12 if 2 <= p - a => self.add_piece(a + 1, p),
            _ => Ok(()),
        }
    }

    // One step of the machine, to t.
    fn advance(&mut self, t: usize) -> Result<(), Refused>
        requires { (is_owned self.old.state ≡ true → 1 ≤ self.old.count) × (self.old.from ≤ self.old.at) × (self.old.at < 2 ^ 63) }
        ensures holds { held_by self.new result ≡ hold_all (length self.old.elements.now) (length self.old.pieces.now) (map (given.told self.old.at) (given.given_by self.old.state t self.old.from self.old.at)) (held_in self.old) }
        ensures onward { Onward self.old self.new }
        ensures machine { OnOk result ((self.new.state ≡ given.onward t) × (self.new.from ≡ given.begun_by self.old.state t self.old.from self.old.at) × (owns self.old.state t ≡ true → 1 ≤ self.new.count)) }
    {
        if stays(self.state, t) {
            self.state = onward(t);
            return Ok(());
        }
        self.leave()?;
        self.state = onward(t);
        self.from = self.at;
        Ok(())
    }

    // The answer once a set of n bytes is complete at p with no other behind it, of all bytes that were lent.
    fn complete(&mut self, p: usize, n: usize, lent: usize) -> Result<Opened, Refused>
        ensures holds { outcome_of result self.new.elements.now self.new.pieces.now ≡ complete_by (length self.old.elements.now) (length self.old.pieces.now) lent (held_in self.old) p n }
        ensures room { IfOk result (λ o. o.count * 5 ≤ length self.new.elements.now) }
        ensures onward { Onward self.old self.new }
    {
        self.at = p;
        if p < n {
            return Err(self.refused(Refusal::NotASet));
        }
        self.elements[self.count * ELEMENT..].fill(0);
        self.pieces[self.parts * PIECE..].fill(0);
        Ok(Opened {
            position: lent as u64,
            count: self.count as u64,
        })
    }

    // All bytes, from the start; what is refused leaves any words.
    fn run(&mut self, bytes: &[u8]) -> Result<Opened, Refused>
        requires { (self.old.state ≡ 0) × (self.old.from ≡ 0) × (self.old.count ≡ 0) × (self.old.parts ≡ 0) }
        ensures holds { outcome_of result self.new.elements.now self.new.pieces.now ≡ open_of bytes.now (length self.old.elements.now) (length self.old.pieces.now) }
        ensures room { IfOk result (λ o. o.count * 5 ≤ length self.new.elements.now) }
        ensures onward { Onward self.old self.new }
    {
        let set = trim::trim_end(bytes);
        for (p, b) in set.iter().enumerate() {
            self.at = p;
            let t = attrs::step(self.state, *b);
            if t == attrs::INVALID {
                return Err(self.refused(Refusal::NotASet));
            }
            self.advance(t)?;
            if halts(set, t, p + 1) {
                return self.complete(p + 1, set.len(), bytes.len());
            }
        }
        self.at = set.len();
        Err(self.refused(Refusal::NotASet))
    }
}

// One or more sets `{..}{..}`, whitespace at the end aside.
pub fn read(bytes: &[u8], elements: &mut [u64], pieces: &mut [u64]) -> Result<Opened, Refused>
    ensures value { answered result ≡ (open_of bytes.now (length elements.old) (length pieces.old)).answer }
    ensures elements_after { elements.new ≡ (open_of bytes.now (length elements.old) (length pieces.old)).elements }
    ensures pieces_after { pieces.new ≡ (open_of bytes.now (length elements.old) (length pieces.old)).pieces }
    ensures room { IfOk result (λ o. o.count * 5 ≤ length elements.new) }
{
    let mut reader = Reader {
        elements,
        pieces,
        state: attrs::START,
        from: 0,
        at: 0,
        count: 0,
        parts: 0,
    };
    let opened = reader.run(bytes);
    if opened.is_err() {
        elements.fill(0);
        pieces.fill(0);
    }
    opened
}

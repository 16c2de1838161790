// The bytes of a value, its pieces joined, in a lent buffer (RULES J6, J17, J18): measured first, so that a refusal leaves the buffer as it was.
#![tactic(auto)]

ghost use Rattle.std.specs.Prelude.{◌≡◌, ◌-◌, ◌*◌, ◌/◌, ◌≤◌, length, take, drop, ◌∷◌, [], IfOk};
ghost use Rattle.sets.specs.Layout.{listed, spanned, own, words_of};
ghost use Rattle.sets.specs.Words.{listed_as, spanned_as, answered};
ghost use Rattle.joins.specs.Joins.{pieces_of, is_tight, filled_by, filled_of, join_of, one_of, text_of};
ghost use Rattle.joins.specs.View.{length_in, added_in};

use lines::Span;
use refusals::{Refusal, Refused};
use sets::{Element, Elements, Kind, Opened};
use sinks::{Count, Fill, Sink};
use trim;
use values;

// How pieces of some bytes are joined: what stands between two, and how many bytes a text may have.
#[derive(Clone, Copy)]
struct Joining<'t, 'g> {
    bytes: &'t [u8],
    glue: &'g [u8],
    room: usize,
}

impl Joining<'_, '_> {
    // One piece more behind a text of n bytes: how long it is then.
    fn put_piece<S: Sink>(&self, n: usize, p: Span<u64>, to: &mut S) -> Result<usize, Refused>
        requires within { n ≤ self.now.room }
        requires fits { S.fits to.old (self.now.room - n) }
        ensures value { result ≡ length_in self.now n (spanned_as p ∷ []) }
        ensures put { IfOk result (λ k. S.took to.old (added_in self.now n (spanned_as p ∷ [])) to.new) }
    {
        let s = trim::part(self.bytes, p.start as usize, p.end as usize);
        if s.is_empty() {
            return Ok(n);
        }
        let glue: &[u8] = if n == 0 { b"" } else { self.glue };
        if self.room - n < glue.len() + s.len() {
            return Err(Refused {
                why: Refusal::BytesFull,
                at: p.start,
            });
        }
        to.put(glue);
        to.put(s);
        Ok(n + glue.len() + s.len())
    }

    // The pieces of one element.
    fn put_pieces<S: Sink>(
        &self,
        begun: usize,
        e: Element,
        pieces: &[u64],
        to: &mut S,
    ) -> Result<usize, Refused>
        requires within { begun ≤ self.now.room }
        requires fits { S.fits to.old (self.now.room - begun) }
        ensures value { result ≡ length_in self.now begun (own (spanned (length pieces.now / 2) pieces.now) (listed_as e)) }
        ensures put { IfOk result (λ k. S.took to.old (added_in self.now begun (own (spanned (length pieces.now / 2) pieces.now) (listed_as e))) to.new) }
    {
        let end = (e.past as usize).min(pieces.len() / sets::PIECE);
        let mut n = begun;
        for j in e.first as usize..end {
            n = self.put_piece(n, sets::piece_at(pieces, j), to)?;
        }
        Ok(n)
    }

    // The pieces of some elements.
    fn put_all<S: Sink>(
        &self,
        elements: Elements,
        pieces: &[u64],
        to: &mut S,
    ) -> Result<usize, Refused>
        requires { S.fits to.old self.now.room }
        ensures value { result ≡ length_in self.now 0 (pieces_of (spanned (length pieces.now / 2) pieces.now) (listed elements.entry.count elements.entry.words.now)) }
        ensures put { IfOk result (λ k. S.took to.old (added_in self.now 0 (pieces_of (spanned (length pieces.now / 2) pieces.now) (listed elements.entry.count elements.entry.words.now))) to.new) }
    {
        let mut n: usize = 0;
        for i in 0..elements.count {
            let e = sets::element_at(elements.words, i);
            n = self.put_pieces(n, e, pieces, to)?;
        }
        Ok(n)
    }
}

// The text of some elements, if it has room.
fn fill(
    bytes: &[u8],
    glue: &[u8],
    elements: Elements,
    pieces: &[u64],
    out: &mut [u8],
) -> Result<Opened, Refused>
    ensures value { answered result ≡ (filled_by bytes.now out.old glue.now (pieces_of (spanned (length pieces.now / 2) pieces.now) (listed elements.entry.count elements.entry.words.now))).answer }
    ensures out_after { out.new ≡ (filled_by bytes.now out.old glue.now (pieces_of (spanned (length pieces.now / 2) pieces.now) (listed elements.entry.count elements.entry.words.now))).out }
{
    let join = Joining {
        bytes,
        glue,
        room: out.len(),
    };
    join.put_all(elements, pieces, &mut Count { bytes: 0 })?;
    let n = join.put_all(elements, pieces, &mut Fill { out, at: 0 })?;
    Ok(Opened {
        position: bytes.len() as u64,
        count: n as u64,
    })
}

// Whether the first element is a comment.
fn is_tight(elements: Elements) -> bool
    ensures { result ≡ is_tight (listed elements.entry.count elements.entry.words.now) }
{
    match elements.get(0) {
        Some(e) => e.is(Kind::Comment),
        None => false,
    }
}

// The same text, glued as its elements are.
fn fill_by_kind(
    bytes: &[u8],
    elements: Elements,
    pieces: &[u64],
    out: &mut [u8],
) -> Result<Opened, Refused>
    ensures value { answered result ≡ (filled_of bytes.now out.old pieces.now (listed elements.entry.count elements.entry.words.now)).answer }
    ensures out_after { out.new ≡ (filled_of bytes.now out.old pieces.now (listed elements.entry.count elements.entry.words.now)).out }
{
    if is_tight(elements) {
        return fill(bytes, b"", elements, pieces, out);
    }
    fill(bytes, b" ", elements, pieces, out)
}

// The joined bytes of the value of a key.
pub fn join(
    bytes: &[u8],
    key: &[u8],
    elements: &mut [u64],
    pieces: &mut [u64],
    out: &mut [u8],
) -> Result<Opened, Refused>
    ensures value { answered result ≡ (join_of bytes.now key.now (length elements.old) (length pieces.old) out.old).answer }
    ensures elements_after { elements.new ≡ (join_of bytes.now key.now (length elements.old) (length pieces.old) out.old).elements }
    ensures pieces_after { pieces.new ≡ (join_of bytes.now key.now (length elements.old) (length pieces.old) out.old).pieces }
    ensures out_after { out.new ≡ (join_of bytes.now key.now (length elements.old) (length pieces.old) out.old).out }
{
    let value = values::value(bytes, key, elements, pieces)?;
    let kept = Elements {
        words: elements,
        count: value.count as usize,
    };
    fill_by_kind(bytes, kept, pieces, out)
}

// Of the first n elements the one at a place, if it is there.
fn keep_one(elements: &mut [u64], n: usize, place: usize) -> usize
    requires { n * 5 ≤ length elements.old }
    ensures { (take (result * 5) elements.new ≡ words_of (take 1 (drop place (listed n elements.old)))) × (result ≡ length (take 1 (drop place (listed n elements.old)))) × (result ≤ n) }
{
    if n <= place {
        return 0;
    }
    let e = sets::element_at(elements, place);
    sets::put_element(elements, 0, e);
    1
}

// The element at a place alone.
fn one(
    bytes: &[u8],
    place: usize,
    elements: &mut [u64],
    pieces: &mut [u64],
) -> Result<Opened, Refused>
    ensures value { answered result ≡ (one_of bytes.now place (length elements.old) (length pieces.old)).answer }
    ensures elements_after { elements.new ≡ (one_of bytes.now place (length elements.old) (length pieces.old)).elements }
    ensures pieces_after { pieces.new ≡ (one_of bytes.now place (length elements.old) (length pieces.old)).pieces }
    ensures room { IfOk result (λ o. o.count * 5 ≤ length elements.new) }
{
    let all = sets::read(bytes, elements, pieces)?;
    let m = keep_one(elements, all.count as usize, place);
    Ok(values::hand(bytes, elements, m))
}

// The joined bytes of the value of the element at a place, counted from 0.
pub fn text(
    bytes: &[u8],
    place: usize,
    elements: &mut [u64],
    pieces: &mut [u64],
    out: &mut [u8],
) -> Result<Opened, Refused>
    ensures value { answered result ≡ (text_of bytes.now place (length elements.old) (length pieces.old) out.old).answer }
    ensures elements_after { elements.new ≡ (text_of bytes.now place (length elements.old) (length pieces.old) out.old).elements }
    ensures pieces_after { pieces.new ≡ (text_of bytes.now place (length elements.old) (length pieces.old) out.old).pieces }
    ensures out_after { out.new ≡ (text_of bytes.now place (length elements.old) (length pieces.old) out.old).out }
{
    let there = one(bytes, place, elements, pieces)?;
    let kept = Elements {
        words: elements,
        count: there.count as usize,
    };
    fill_by_kind(bytes, kept, pieces, out)
}

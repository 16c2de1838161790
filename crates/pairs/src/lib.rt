// Pairs of a set: each key once, where it first shows, with its value (RULES J9, J16); keys are compared in sorting alone, n log n times.
#![tactic(auto)]

ghost use Rattle.std.specs.Prelude.{◌≡◌, ◌-◌, ◌*◌, ◌≤◌, length, take, drop, replicate};
ghost use Rattle.sets.specs.Layout.{listed, element_in, words_of};
ghost use Rattle.sets.specs.Words.{listed_as, answered};
ghost use Rattle.ranks.specs.Ranks.{ranks_of};
ghost use Rattle.pairs.specs.Pairs.{lesser, pairs_in, pairs_of};
ghost use Rattle.pairs.specs.View.{shows, shown_by};

use keys;
use ranks;
use refusals::{Refusal, Refused};
use sets::{Element, Kind, Opened};
use values;

// What an element shows by its rank: 0 where it has no key or its key has shown before, else one more than the last place of its key.
fn shown(bytes: &[u8], elements: &[u64], e: Element, rank: u64) -> Option<Element>
    requires { rank * 5 ≤ length elements.now }
    ensures { shows result ≡ shown_by bytes.now (listed_as e) rank (element_in (drop ((rank - 1) * 5) elements.now)) }
{
    if keys::has_key(bytes, e, b"class") {
        if rank != 0 {
            return Some(e);
        }
        return Some(Element {
            kind: Kind::Further.into(),
            ..e
        });
    }
    let last = rank.checked_sub(1)?;
    let value = sets::element_at(elements, last as usize);
    Some(Element {
        first: value.first,
        past: value.past,
        ..e
    })
}

// The pairs of the elements whose ranks are lent, in the elements' own words.
fn show_all(bytes: &[u8], elements: &mut [u64], ranks: &[u64]) -> usize
    requires { (length ranks.now * 5 ≤ length elements.old) × (ranks.now ≡ ranks_of bytes.now (listed (length ranks.now) elements.old)) }
    ensures { (take (result * 5) elements.new ≡ words_of (pairs_in bytes.now (listed (length ranks.now) elements.old))) × (result ≡ length (pairs_in bytes.now (listed (length ranks.now) elements.old))) × (result ≤ length ranks.now) }
{
    let mut m: usize = 0;
    for (i, rank) in ranks.iter().enumerate() {
        let e = sets::element_at(elements, i);
        if let Some(pair) = shown(bytes, elements, e, *rank) {
            sets::put_element(elements, m * sets::ELEMENT, pair);
            m += 1;
        }
    }
    m
}

// Ranks the first n elements, then shows them.
fn sorted(
    bytes: &[u8],
    elements: &mut [u64],
    places: &mut [u64],
    spare: &mut [u64],
    n: usize,
) -> usize
    requires { (n * 5 ≤ length elements.old) × (n ≤ length places.old) × (n ≤ length spare.old) }
    ensures { (take (result * 5) elements.new ≡ words_of (pairs_in bytes.now (listed n elements.old))) × (result ≡ length (pairs_in bytes.now (listed n elements.old))) × (result ≤ n) }
{
    ranks::rank(bytes, elements, &mut places[..n], &mut spare[..n]);
    show_all(bytes, elements, &spare[..n])
}

// The pairs, where each element has a place to be sorted by; places are left as they come.
fn paired(
    bytes: &[u8],
    elements: &mut [u64],
    pieces: &mut [u64],
    places: &mut [u64],
    spare: &mut [u64],
) -> Result<Opened, Refused>
    ensures value { answered result ≡ (pairs_of bytes.now (length elements.old) (length pieces.old) (lesser (length places.old) (length spare.old))).answer }
    ensures elements_after { elements.new ≡ (pairs_of bytes.now (length elements.old) (length pieces.old) (lesser (length places.old) (length spare.old))).elements }
    ensures pieces_after { pieces.new ≡ (pairs_of bytes.now (length elements.old) (length pieces.old) (lesser (length places.old) (length spare.old))).pieces }
{
    let all = sets::read(bytes, elements, pieces)?;
    let n = all.count as usize;
    let room = places.len().min(spare.len());
    if room < n {
        let lacks = sets::element_at(elements, room);
        elements.fill(0);
        pieces.fill(0);
        return Err(Refused {
            why: Refusal::ElementsFull,
            at: lacks.key.end,
        });
    }
    let m = sorted(bytes, elements, places, spare, n);
    Ok(values::hand(bytes, elements, m))
}

// Each key once: five words each where the elements stood, the pieces as they were read. Places to sort by are lent, one of each for an element.
pub fn pairs(
    bytes: &[u8],
    elements: &mut [u64],
    pieces: &mut [u64],
    places: &mut [u64],
    spare: &mut [u64],
) -> Result<Opened, Refused>
    ensures value { answered result ≡ (pairs_of bytes.now (length elements.old) (length pieces.old) (lesser (length places.old) (length spare.old))).answer }
    ensures elements_after { elements.new ≡ (pairs_of bytes.now (length elements.old) (length pieces.old) (lesser (length places.old) (length spare.old))).elements }
    ensures pieces_after { pieces.new ≡ (pairs_of bytes.now (length elements.old) (length pieces.old) (lesser (length places.old) (length spare.old))).pieces }
    ensures places_after { (places.new ≡ replicate (length places.old) 0) × (spare.new ≡ replicate (length spare.old) 0) }
{
    let found = paired(bytes, elements, pieces, places, spare);
    places.fill(0);
    spare.fill(0);
    found
}

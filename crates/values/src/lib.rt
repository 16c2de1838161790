// Values of a set: the elements whose pieces make up the value of a key (RULES J8, J15).
#![tactic(auto)]

ghost use Rattle.std.specs.Prelude.{◌≡◌, [], ◌++◌, ◌-◌, ◌*◌, ◌≤◌, length, take, replicate, IfOk};
ghost use Rattle.sets.specs.Layout.{listed, words_of};
ghost use Rattle.sets.specs.Words.{listed_as, answered};
ghost use Rattle.keys.specs.Keys.{has_key};
ghost use Rattle.values.specs.Values.{all_with, last_with, adds, value_in, value_of};

use equals;
use keys;
use refusals::Refused;
use sets::{Element, Opened};

// Whether an element has the key and a piece.
fn adds(bytes: &[u8], key: &[u8], e: Element) -> bool
    ensures { result ≡ adds bytes.now key.now (listed_as e) }
{
    keys::has_key(bytes, e, key) && e.first < e.past
}

// Of the first n elements those that add to the key's value, in order: they are kept where they stand, so the words stay a buffer with a number of elements
// (`sets::Elements` only reads). `keep_last` keeps one, by another test, and says so by another definition.
fn keep_all(bytes: &[u8], key: &[u8], elements: &mut [u64], n: usize) -> usize
    requires { n * 5 ≤ length elements.old }
    ensures { (take (result * 5) elements.new ≡ words_of (all_with (adds bytes.now key.now) (listed n elements.old))) × (result ≡ length (all_with (adds bytes.now key.now) (listed n elements.old))) × (result ≤ n) }
{
    let mut m: usize = 0;
    for i in 0..n {
        let e = sets::element_at(elements, i);
        if adds(bytes, key, e) {
            sets::put_element(elements, m * sets::ELEMENT, e);
            m += 1;
        }
    }
    m
}

// Of the first n elements the last that has the key.
fn keep_last(bytes: &[u8], key: &[u8], elements: &mut [u64], n: usize) -> usize
    requires { n * 5 ≤ length elements.old }
    ensures { (take (result * 5) elements.new ≡ words_of (last_with (has_key bytes.now key.now) (listed n elements.old) [])) × (result ≡ length (last_with (has_key bytes.now key.now) (listed n elements.old) [])) × (result ≤ n) }
{
    let mut m: usize = 0;
    for i in 0..n {
        let e = sets::element_at(elements, i);
        if keys::has_key(bytes, e, key) {
            sets::put_element(elements, 0, e);
            m = 1;
        }
    }
    m
}

// Of the first n elements those that make up the key's value.
fn select(bytes: &[u8], key: &[u8], elements: &mut [u64], n: usize) -> usize
    requires { n * 5 ≤ length elements.old }
    ensures { (take (result * 5) elements.new ≡ words_of (value_in bytes.now key.now (listed n elements.old))) × (result ≡ length (value_in bytes.now key.now (listed n elements.old))) × (result ≤ n) }
{
    if equals::same(key, b"class") {
        return keep_all(bytes, key, elements, n);
    }
    keep_last(bytes, key, elements, n)
}

// The first m elements are handed back, zeros behind them.
pub fn hand(bytes: &[u8], elements: &mut [u64], m: usize) -> Opened
    requires { m * 5 ≤ length elements.old }
    ensures value { result ≡ record { position = length bytes.now; count = m } }
    ensures elements_after { elements.new ≡ take (m * 5) elements.old ++ replicate (length elements.old - m * 5) 0 }
{
    elements[m * sets::ELEMENT..].fill(0);
    Opened {
        position: bytes.len() as u64,
        count: m as u64,
    }
}

// The elements that make up the value of a key; their pieces, joined by a space, are the value.
pub fn value(
    bytes: &[u8],
    key: &[u8],
    elements: &mut [u64],
    pieces: &mut [u64],
) -> Result<Opened, Refused>
    ensures value { answered result ≡ (value_of bytes.now key.now (length elements.old) (length pieces.old)).answer }
    ensures elements_after { elements.new ≡ (value_of bytes.now key.now (length elements.old) (length pieces.old)).elements }
    ensures pieces_after { pieces.new ≡ (value_of bytes.now key.now (length elements.old) (length pieces.old)).pieces }
    ensures room { IfOk result (λ o. o.count * 5 ≤ length elements.new) }
{
    let all = sets::read(bytes, elements, pieces)?;
    let m = select(bytes, key, elements, all.count as usize);
    Ok(hand(bytes, elements, m))
}

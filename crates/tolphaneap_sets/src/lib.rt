// Sets of attributes for other languages: a slice is a pointer and a length, an answer is filled in. include/tolphaneap_sets.h describes each;
// tolphaneap_sets_c exports them.
#![tactic(auto)]

ghost use Rattle.std.specs.Prelude.{◌≡◌, length, replicate};
ghost use Rattle.sets.specs.Opened.{open_of};
ghost use Rattle.sets.specs.Words.{answered};
ghost use Rattle.values.specs.Values.{value_of};
ghost use Rattle.pairs.specs.Pairs.{lesser, pairs_of};
ghost use Rattle.joins.specs.Joins.{join_of, text_of};
ghost use Rattle.tolphaneap_sets.specs.Answers.{opened_words};

use refusals::Refused;
use sets::Opened;

fn tell(found: Result<Opened, Refused>, answer: &mut [u64; 3])
    ensures { answer.new ≡ opened_words (answered found) }
{
    *answer = match found {
        Ok(o) => [0, o.position, o.count],
        Err(r) => [r.why.into(), r.at, 0],
    };
}

// The elements of a set and the pieces of their values.
pub fn tolphaneap_set_read(
    bytes: &[u8],
    elements: &mut [u64],
    pieces: &mut [u64],
    answer: &mut [u64; 3],
)
    ensures answer_after { answer.new ≡ opened_words (open_of bytes.now (length elements.old) (length pieces.old)).answer }
    ensures elements_after { elements.new ≡ (open_of bytes.now (length elements.old) (length pieces.old)).elements }
    ensures pieces_after { pieces.new ≡ (open_of bytes.now (length elements.old) (length pieces.old)).pieces }
{
    let a = sets::read(bytes, elements, pieces);
    tell(a, answer);
}

// The elements that make up the value of a key.
pub fn tolphaneap_set_value(
    bytes: &[u8],
    key: &[u8],
    elements: &mut [u64],
    pieces: &mut [u64],
    answer: &mut [u64; 3],
)
    ensures answer_after { answer.new ≡ opened_words (value_of bytes.now key.now (length elements.old) (length pieces.old)).answer }
    ensures elements_after { elements.new ≡ (value_of bytes.now key.now (length elements.old) (length pieces.old)).elements }
    ensures pieces_after { pieces.new ≡ (value_of bytes.now key.now (length elements.old) (length pieces.old)).pieces }
{
    let a = values::value(bytes, key, elements, pieces);
    tell(a, answer);
}

// Each key once, with its value.
pub fn tolphaneap_set_pairs(
    bytes: &[u8],
    elements: &mut [u64],
    pieces: &mut [u64],
    places: &mut [u64],
    spare: &mut [u64],
    answer: &mut [u64; 3],
)
    ensures answer_after { answer.new ≡ opened_words (pairs_of bytes.now (length elements.old) (length pieces.old) (lesser (length places.old) (length spare.old))).answer }
    ensures elements_after { elements.new ≡ (pairs_of bytes.now (length elements.old) (length pieces.old) (lesser (length places.old) (length spare.old))).elements }
    ensures pieces_after { pieces.new ≡ (pairs_of bytes.now (length elements.old) (length pieces.old) (lesser (length places.old) (length spare.old))).pieces }
    ensures places_after { (places.new ≡ replicate (length places.old) 0) × (spare.new ≡ replicate (length spare.old) 0) }
{
    let a = pairs::pairs(bytes, elements, pieces, places, spare);
    tell(a, answer);
}

// The bytes of the value of a key.
pub fn tolphaneap_set_join(
    bytes: &[u8],
    key: &[u8],
    elements: &mut [u64],
    pieces: &mut [u64],
    out: &mut [u8],
    answer: &mut [u64; 3],
)
    ensures answer_after { answer.new ≡ opened_words (join_of bytes.now key.now (length elements.old) (length pieces.old) out.old).answer }
    ensures elements_after { elements.new ≡ (join_of bytes.now key.now (length elements.old) (length pieces.old) out.old).elements }
    ensures pieces_after { pieces.new ≡ (join_of bytes.now key.now (length elements.old) (length pieces.old) out.old).pieces }
    ensures out_after { out.new ≡ (join_of bytes.now key.now (length elements.old) (length pieces.old) out.old).out }
{
    let a = joins::join(bytes, key, elements, pieces, out);
    tell(a, answer);
}

// The bytes of the value of one element.
pub fn tolphaneap_set_text(
    bytes: &[u8],
    place: usize,
    elements: &mut [u64],
    pieces: &mut [u64],
    out: &mut [u8],
    answer: &mut [u64; 3],
)
    ensures answer_after { answer.new ≡ opened_words (text_of bytes.now place (length elements.old) (length pieces.old) out.old).answer }
    ensures elements_after { elements.new ≡ (text_of bytes.now place (length elements.old) (length pieces.old) out.old).elements }
    ensures pieces_after { pieces.new ≡ (text_of bytes.now place (length elements.old) (length pieces.old) out.old).pieces }
    ensures out_after { out.new ≡ (text_of bytes.now place (length elements.old) (length pieces.old) out.old).out }
{
    let a = joins::text(bytes, place, elements, pieces, out);
    tell(a, answer);
}

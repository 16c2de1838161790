// The exported functions of the interface: the symbols of include/tolphaneap_sets.h, each one the function of tolphaneap_sets with the same clauses.
#![tactic(auto)]

ghost use Rattle.std.specs.Prelude.{◌≡◌, length, replicate};
ghost use Rattle.sets.specs.Opened.{open_of};
ghost use Rattle.values.specs.Values.{value_of};
ghost use Rattle.pairs.specs.Pairs.{lesser, pairs_of};
ghost use Rattle.joins.specs.Joins.{join_of, text_of};
ghost use Rattle.tolphaneap_sets.specs.Answers.{opened_words};

use tolphaneap_sets;

// The elements of a set and the pieces of their values.
#[unsafe(no_mangle)]
pub extern "C" fn tolphaneap_set_read(
    bytes: &[u8],
    elements: &mut [u64],
    pieces: &mut [u64],
    answer: &mut [u64; 3],
)
    ensures answer_after { answer.new ≡ opened_words (open_of bytes.now (length elements.old) (length pieces.old)).answer }
    ensures elements_after { elements.new ≡ (open_of bytes.now (length elements.old) (length pieces.old)).elements }
    ensures pieces_after { pieces.new ≡ (open_of bytes.now (length elements.old) (length pieces.old)).pieces }
{
    tolphaneap_sets::tolphaneap_set_read(bytes, elements, pieces, answer);
}

// The elements that make up the value of a key.
#[unsafe(no_mangle)]
pub extern "C" fn tolphaneap_set_value(
    bytes: &[u8],
    key: &[u8],
    elements: &mut [u64],
    pieces: &mut [u64],
    answer: &mut [u64; 3],
)
    ensures answer_after { answer.new ≡ opened_words (value_of bytes.now key.now (length elements.old) (length pieces.old)).answer }
    ensures elements_after { elements.new ≡ (value_of bytes.now key.now (length elements.old) (length pieces.old)).elements }
    ensures pieces_after { pieces.new ≡ (value_of bytes.now key.now (length elements.old) (length pieces.old)).pieces }
{
    tolphaneap_sets::tolphaneap_set_value(bytes, key, elements, pieces, answer);
}

// Each key once, with its value.
#[unsafe(no_mangle)]
pub extern "C" fn tolphaneap_set_pairs(
    bytes: &[u8],
    elements: &mut [u64],
    pieces: &mut [u64],
    places: &mut [u64],
    spare: &mut [u64],
    answer: &mut [u64; 3],
)
    ensures answer_after { answer.new ≡ opened_words (pairs_of bytes.now (length elements.old) (length pieces.old) (lesser (length places.old) (length spare.old))).answer }
    ensures elements_after { elements.new ≡ (pairs_of bytes.now (length elements.old) (length pieces.old) (lesser (length places.old) (length spare.old))).elements }
    ensures pieces_after { pieces.new ≡ (pairs_of bytes.now (length elements.old) (length pieces.old) (lesser (length places.old) (length spare.old))).pieces }
    ensures places_after { (places.new ≡ replicate (length places.old) 0) × (spare.new ≡ replicate (length spare.old) 0) }
{
    tolphaneap_sets::tolphaneap_set_pairs(bytes, elements, pieces, places, spare, answer);
}

// The bytes of the value of a key.
#[unsafe(no_mangle)]
pub extern "C" fn tolphaneap_set_join(
    bytes: &[u8],
    key: &[u8],
    elements: &mut [u64],
    pieces: &mut [u64],
    out: &mut [u8],
    answer: &mut [u64; 3],
)
    ensures answer_after { answer.new ≡ opened_words (join_of bytes.now key.now (length elements.old) (length pieces.old) out.old).answer }
    ensures elements_after { elements.new ≡ (join_of bytes.now key.now (length elements.old) (length pieces.old) out.old).elements }
    ensures pieces_after { pieces.new ≡ (join_of bytes.now key.now (length elements.old) (length pieces.old) out.old).pieces }
    ensures out_after { out.new ≡ (join_of bytes.now key.now (length elements.old) (length pieces.old) out.old).out }
{
    tolphaneap_sets::tolphaneap_set_join(bytes, key, elements, pieces, out, answer);
}

// The bytes of the value of one element.
#[unsafe(no_mangle)]
pub extern "C" fn tolphaneap_set_text(
    bytes: &[u8],
    place: usize,
    elements: &mut [u64],
    pieces: &mut [u64],
    out: &mut [u8],
    answer: &mut [u64; 3],
)
    ensures answer_after { answer.new ≡ opened_words (text_of bytes.now place (length elements.old) (length pieces.old) out.old).answer }
    ensures elements_after { elements.new ≡ (text_of bytes.now place (length elements.old) (length pieces.old) out.old).elements }
    ensures pieces_after { pieces.new ≡ (text_of bytes.now place (length elements.old) (length pieces.old) out.old).pieces }
    ensures out_after { out.new ≡ (text_of bytes.now place (length elements.old) (length pieces.old) out.old).out }
{
    tolphaneap_sets::tolphaneap_set_text(bytes, place, elements, pieces, out, answer);
}

//! Words and texts as they are told, and sentences of them.
ghost use Rattle.std.specs.Prelude.{◌≡◌, [], ◌∷◌, ◌++◌, drop, map, take, OnOk};
ghost use Rattle.show_tokens.specs.Words.{sentence, word};
ghost use Rattle.std.specs.List.{flat_map};

use vm_field::{Bytes, Memory};

// Of a word of a source so many bytes are told.
const MOST_WORD: usize = 100;

/// What is told of a word of a source: its bytes, at most 100.
pub fn word(text: &[u8]) -> &[u8]
    ensures { result.now ≡ word text.entry.now }
{
    front(text, MOST_WORD)
}

/// Adds words and texts, one behind the other, as a line.
#[tactic(auto, unfolding(crate::specs::Words::sentence))]
pub fn append_sentence(text: &mut Bytes, pieces: &[&[u8]]) -> Result<(), Memory>
    ensures { OnOk result (text.new ≡ text.old ++ sentence (map (λ piece. piece.now) pieces.now)) }
{
    append_pieces(text, pieces)?;
    text.append(b"\n")
}

/// Adds two pieces as a line.
pub fn append_both<'t>(text: &mut Bytes, one: &'t [u8], other: &'t [u8]) -> Result<(), Memory>
    ensures { OnOk result (text.new ≡ text.old ++ sentence (one.now ∷ other.now ∷ [])) }
{
    append_sentence(text, &[one, other])
}

fn append_pieces(text: &mut Bytes, pieces: &[&[u8]]) -> Result<(), Memory>
    ensures { OnOk result (text.new ≡ text.old ++ flat_map (λ piece. piece) (map (λ piece. piece.now) pieces.now)) }
{
    for piece in pieces {
        text.append(piece)?;
    }
    Ok(())
}

/// The bytes of a text, at most so many.
#[tactic(auto, using(std::proofs::lemmas::List::take_min))]
pub fn front(text: &[u8], most: usize) -> &[u8]
    ensures { result.now ≡ take most text.entry.now }
{
    &text[..most.min(text.len())]
}

// The bytes of a text behind so many.
#[tactic(auto, using(std::proofs::lemmas::List::drop_min))]
pub(crate) fn behind(text: &[u8], count: usize) -> &[u8]
    ensures { result.now ≡ drop count text.entry.now }
{
    &text[count.min(text.len())..]
}

//! The order of words and of labels.

ghost use Rattle.std.specs.Prelude.{◌≡◌};
ghost use Rattle.std.specs.Cmp.Lexicographic.{slice_cmp};
ghost use Rattle.std.specs.Ordering.{nat_cmp};
ghost use Rattle.qe_labels.specs.Listed.{kind_place, label_cmp};
ghost use Rattle.qe_labels.specs.Numbers.{word_cmp};

use qe_tokens::{Label, LabelKind, Word};
use std::cmp::Ordering;

// How bytes compare: by the first that differs, or else by length.
fn bytes_order(one: &[u8], other: &[u8]) -> Ordering
    ensures { result ≡ slice_cmp nat_cmp one.now other.now }
{
    one.cmp(other)
}

/// Items stand before stray words: items by field, bytes and contention factor, stray words by token.
pub fn word_order(one: &Word, other: &Word) -> Ordering
    ensures { result ≡ word_cmp one.now other.now }
{
    match one {
        Word::Item {
            field,
            item,
            contention,
        } => match other {
            Word::Item {
                field: other_field,
                item: other_item,
                contention: other_contention,
            } => field
                .cmp(other_field)
                .then(bytes_order(item.slice(), other_item.slice()))
                .then(contention.cmp(other_contention)),
            Word::Stray { .. } => Ordering::Less,
        },
        Word::Stray { token } => match other {
            Word::Item { .. } => Ordering::Greater,
            Word::Stray { token: other_token } => bytes_order(token, other_token),
        },
    }
}

// The place of a kind in the order.
fn kind_rank(kind: LabelKind) -> u8
    ensures { result ≡ kind_place kind }
{
    match kind {
        LabelKind::Position => 0,
        LabelKind::Anchor => 1,
        LabelKind::Tag => 2,
    }
}

/// Labels stand by kind (positions, anchors, tags), then by word, then by number.
pub fn label_order(one: &Label, other: &Label) -> Ordering
    ensures { result ≡ label_cmp one.now other.now }
{
    kind_rank(one.kind).cmp(&kind_rank(other.kind)).then(word_order(&one.word, &other.word).then(
        one.number.cmp(&other.number),
    ))
}

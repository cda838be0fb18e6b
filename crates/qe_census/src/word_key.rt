//! Words in their order.

ghost use Rattle.std.specs.Prelude.{◌≡◌, refl};
ghost use Rattle.std.specs.Cmp.{eq_by_cmp_equiv, partial_equiv_from_equiv, po};
ghost use Rattle.std.specs.Ordering.{as_partial_cmp, eq_by_cmp};
ghost use Rattle.qe_labels.specs.Numbers.{word_cmp};
ghost use Rattle.qe_labels.proofs.OrderLemmas.{words_total};

use qe_label_list::word_order;
use qe_tokens::Word;
use std::cmp::Ordering;
use std::marker::Model;

/// A word that is compared by the order of words. Contracts see the word.
#[derive(Drop)]
pub(crate) struct WordKey {
    pub word: Word,
}

impl Model for WordKey {
    ghost use Rattle.qe_tokens.specs.declared.words.Word.{Word};

    ghost Value = { Word };

    ghost view = { λ key. key.word };
}

impl WordKey {
    // The key of a word.
    pub(crate) fn of(word: Word) -> WordKey
        ensures { result ≡ word }
    {
        WordKey { word }
    }

    // The word.
    pub(crate) fn into_word(self) -> Word
        ensures { result ≡ self }
    {
        self.word
    }
}

impl PartialEq for WordKey {
    ghost eq = { eq_by_cmp word_cmp };

    ghost laws = { partial_equiv_from_equiv (eq_by_cmp_equiv words_total) };

    fn eq(&self, other: &WordKey) -> bool {
        word_order(&self.word, &other.word) == Ordering::Equal
    }
}

impl Eq for WordKey {
    ghost laws = { eq_by_cmp_equiv words_total };
}

impl PartialOrd for WordKey {
    ghost partial_cmp = { as_partial_cmp word_cmp };

    ghost laws = { po words_total (λ one other. refl) };

    fn partial_cmp(&self, other: &WordKey) -> Option<Ordering> {
        Some(self.cmp(other))
    }
}

impl Ord for WordKey {
    ghost cmp = { word_cmp };

    ghost total = { words_total };

    ghost matches_partial_cmp = { λ one other. refl };

    ghost matches_eq = { λ one other. refl };

    fn cmp(&self, other: &WordKey) -> Ordering {
        word_order(&self.word, &other.word)
    }
}

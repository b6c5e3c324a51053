//! Laws of the definitions: each is the contract of a function that does nothing.

ghost use Rattle.rv_asm.specs.Laws.{TextsAreReadBack, WordsAreCounted, WordsAreReadBack};

/// The text of an instruction of the table is assembled to the instruction's word, at each base
/// address and under each list of equates; so the text of a decoded word is assembled to that word.
pub fn texts_are_read_back()
    ensures texts { TextsAreReadBack }
    ensures words { WordsAreReadBack }
{}

/// A valid line has as many words as it counts where the addresses of labels are computed: so a
/// label is four bytes above the base for each word before it.
pub fn words_are_counted()
    ensures { WordsAreCounted }
{}

//! Words as they are written.

ghost use Rattle.std.specs.Prelude.{◌≡◌};
ghost use Rattle.std.specs.List.{list_any};
ghost use Rattle.name_tables.specs.Spelling.{is_word, is_cycle};

/// Whether a text is this word, in upper or lower case.
pub fn is_word(text: &[u8], word: &[u8]) -> bool
    ensures { result ≡ is_word text.now word.now }
{
    text.eq_ignore_ascii_case(word)
}

/// Whether a text is one of these words, in upper or lower case.
pub(crate) fn is_one_of(text: &[u8], words: &[&[u8]]) -> bool
    ensures { result ≡ list_any (λ word. is_word text.now word.now) words.now }
{
    words.iter().any(|word| is_word(text, word))
}

/// Whether a name begins with CYCLE, in upper or lower case.
pub(crate) fn is_cycle(text: &[u8]) -> bool
    ensures { result ≡ is_cycle text.now }
{
    is_word(&text[..text.len().min(5)], b"CYCLE")
}

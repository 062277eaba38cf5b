//! The words of a call.
ghost use Rattle.std.specs.Prelude.{◌≡◌, ◌↔◌, IsTrue};
ghost use Rattle.std.specs.Str.{bytes_eq};
ghost use Rattle.std.specs.String.{string_bytes};

/// Whether the word is this text.
pub fn is_word(word: &String, text: &str) -> bool
    ensures same { IsTrue result ↔ (string_bytes word.now ≡ text.now) }
    ensures test { result ≡ bytes_eq (string_bytes word.now) text.now }
{
    word.as_str() == text
}

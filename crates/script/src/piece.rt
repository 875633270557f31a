// Text that one byte divides into pieces.
ghost use Rattle.std.specs.Prelude.{◌≡◌, ◌==◌, ◌∷◌};
ghost use Rattle.std.specs.Str.{bytes_eq};
ghost use Rattle.std.specs.List.{position};
ghost use Rattle.script.specs.Pieces.{pieces, pieces_in};

// Takes the first piece off; what follows the divider, if there is one.
pub fn split_first(text: &[u8], divider: u8) -> (&[u8], Option<&[u8]>)
    ensures { pieces divider text.now ≡ result.0.now ∷ pieces_in divider result.1 }
{
    match find(text, divider) {
        Some(end) => (&text[..end], Some(&text[end + 1..])),
        None => (text, None),
    }
}

// Where the byte first stands. By hand, since the library's `position` takes twice the time.
fn find(text: &[u8], byte: u8) -> Option<usize>
    ensures { result ≡ position (λ b. b == byte) text.now }
{
    for (i, x) in text.iter().enumerate() {
        if *x == byte {
            return Some(i);
        }
    }
    None
}

// The parsers that match by guards call it, so that `==` on bytes has one name.
pub fn is_word(text: &[u8], word: &[u8]) -> bool
    ensures { result ≡ bytes_eq text.now word.now }
{
    text == word
}

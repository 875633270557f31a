// A word of a schedule as text: 8 hexadecimal digits, with capital letters.
ghost use Rattle.std.specs.Prelude.{◌≡◌, ℕ, ◌^◌, ◌<◌, ◌++◌, length, MatchOption, ◌≢◌};
ghost use Rattle.script.specs.Words.{hex_char, word_text, TextSays, WordsApart, StartsNoWord};

pub const WORD_DIGITS: usize = 8;

fn hex_digit(byte: u8) -> Option<u8>
    ensures { MatchOption result ((d : ℕ) → d < 16 → byte ≢ hex_char d) (λ d. (d < 16) × (byte ≡ hex_char d)) }
{
    match byte {
        b'0'..=b'9' => Some(byte - b'0'),
        b'A'..=b'F' => Some(byte - b'A' + 10),
        _ => None,
    }
}

// The word that is written so; none if no word is.
pub fn parse_word(text: &[u8]) -> Option<u32>
    ensures word { TextSays text.now result }
    ensures law { WordsApart }
{
    if text.len() != WORD_DIGITS {
        return None;
    }
    read_digits(text)
}

fn read_digits(text: &[u8]) -> Option<u32>
    requires { length text.now ≡ 8 }
    ensures { TextSays text.now result }
{
    let mut word: u32 = 0;
    for byte in text {
        let digit = hex_digit(*byte)?;
        word = word * 16 + u32::from(digit);
    }
    Some(word)
}

// Takes a word off the front of the text; what follows it.
pub fn split_word(text: &[u8]) -> Option<(u32, &[u8])>
    ensures { MatchOption result (StartsNoWord text.now) (λ p. (p.0 < 2 ^ 32) × (text.now ≡ word_text p.0 ++ p.1.now)) }
{
    let (front, after) = text.split_at_checked(WORD_DIGITS)?;
    Some((parse_word(front)?, after))
}

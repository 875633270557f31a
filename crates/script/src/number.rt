// Decimal numbers.
ghost use Rattle.std.specs.Prelude.{◌≡◌};
ghost use Rattle.script.specs.Numbers.{number_of, number_after, ReadsBack};

// The number that a run of digits writes, if it is at most the limit.
pub fn parse_number(text: &[u8], limit: u16) -> Option<u16>
    ensures value { result ≡ number_of limit text.now }
    ensures law { ReadsBack }
{
    if text.is_empty() {
        return None;
    }
    read_digits(text, limit)
}

fn read_digits(text: &[u8], limit: u16) -> Option<u16>
    ensures { result ≡ number_after limit 0 text.now }
{
    let mut value: u16 = 0;
    for byte in text {
        if !byte.is_ascii_digit() {
            return None;
        }
        let next = u32::from(value) * 10 + u32::from(*byte - b'0');
        if next > u32::from(limit) {
            return None;
        }
        value = next as u16;
    }
    Some(value)
}

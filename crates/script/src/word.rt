// Words of a script: numbers, and bytes in hex.
ghost use Rattle.std.specs.Prelude.{◌≡◌, ◌<◌, ◌≤◌, length, slice_index};
ghost use Rattle.script.specs.Words.{number_of, before_digits, with_digit, nibble_of, is_nibble, all_nibbles, Unbroken};

// A number with one digit more behind it. None if that is no digit, or more than the limit.
fn with_digit(front: Option<u32>, byte: u8, limit: u32) -> Option<u32>
    ensures { result ≡ with_digit limit front byte }
{
    let n = front?;
    if !byte.is_ascii_digit() {
        return None;
    }
    let more = n as u64 * 10 + (byte - b'0') as u64;
    u32::try_from(more).ok().filter(|more| *more <= limit)
}

// What stands before the first digit: nothing yet. A word without a digit is no number.
fn before_digits(word: &[u8]) -> Option<u32>
    ensures { result ≡ before_digits word.now }
{
    (!word.is_empty()).then_some(0)
}

// A decimal number up to a limit: digits alone, at least one; zeros in front pass.
pub fn number(word: &[u8], limit: u32) -> Option<u32>
    ensures { result ≡ number_of limit word.now }
{
    word.iter().fold(
        before_digits(word),
        |front, byte| with_digit(front, *byte, limit),
    )
}

// The value of a hex digit in lower case.
pub fn nibble(byte: u8) -> Option<u8>
    ensures { result ≡ nibble_of byte }
{
    match byte {
        b'0'..=b'9' => Some(byte - b'0'),
        b'a'..=b'f' => Some(byte - b'a' + 10),
        _ => None,
    }
}

// Kept: `nibble(*byte).is_some()` in the chain of `all_nibbles` was tried, and its proof did not close.
fn is_nibble(byte: u8) -> bool
    ensures { result ≡ is_nibble byte }
{
    matches!(byte, b'0'..=b'9' | b'a'..=b'f')
}

// Whether a word is hex digits in lower case and nothing else.
pub fn all_nibbles(word: &[u8]) -> bool
    ensures { result ≡ all_nibbles word.now }
{
    word.iter().all(|byte| is_nibble(*byte))
}

// How far the first part of a text goes: to its first mark, or to its end.
pub fn part_end(text: &[u8], mark: u8) -> usize
    ensures within { result ≤ length text.now }
    ensures part { Unbroken mark text.now result }
    ensures stops { result < length text.now → slice_index text.now result ≡ mark }
{
    text.iter()
        .position(|byte| *byte == mark)
        .unwrap_or(text.len())
}

//! Words that are numbers.
ghost use Rattle.std.specs.Prelude.{◌≡◌, ◌+◌, ◌-◌, ◌*◌, ◌%◌, ◌^◌};
ghost use Rattle.std.specs.Option.{MatchOption};
ghost use Rattle.sheet.specs.Numerals.{Numeral, NoNumber};

// The most digits that a number has.
const MOST_DIGITS: usize = 7;

// A number with a digit written after it, as far as it is below 2³².
fn with_digit(value: u32, digit: u8) -> u32
    ensures { result ≡ (value * 10 + (digit - 48)) % 2 ^ 32 }
{
    let ones = digit.saturating_sub(b'0');
    value.wrapping_mul(10).wrapping_add(u32::from(ones))
}

// The value of a word that is a number: one to seven digits, with no needless zero in front.
pub(crate) fn numeral(text: &[u8]) -> Option<u32>
    ensures { MatchOption result (NoNumber text.now) (λ n. Numeral text.now n) }
{
    if text.is_empty() || text.len() > MOST_DIGITS {
        return None;
    }
    if !text.iter().all(|byte| byte.is_ascii_digit()) {
        return None;
    }
    if text.len() > 1 && text[0] == b'0' {
        return None;
    }
    let value = text
        .iter()
        .fold(0, |value, digit| with_digit(value, *digit));
    Some(value)
}

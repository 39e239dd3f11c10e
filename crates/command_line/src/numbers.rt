//! The numbers of words.
ghost use Rattle.std.specs.Prelude.{◌≡◌, MatchOption, Some, None};
ghost use Rattle.command_line.specs.Numbers.{number_of};
ghost use Rattle.command_line.specs.Parsing.{digit_within, mark_split, three_of, within};

// The most digits of a number.
const MOST_DIGITS: usize = 10;

/// The number that one to ten decimal digits are, leading zeros allowed, where it is at most `most`; none for any
/// other text.
#[tactic(auto, unfolding(crate::specs::Parsing::within))]
pub(crate) fn read_number(text: &str, most: u32) -> Option<u32>
    ensures { result ≡ within most text.now }
{
    let value = u32::try_from(number(text.as_bytes())?).ok()?;
    if value <= most { Some(value) } else { None }
}

/// The number that one to ten decimal digits are, leading zeros allowed; none for any other text.
#[tactic(auto, unfolding(crate::specs::Numbers::number_of, crate::specs::Numbers::digits_after))]
pub(crate) fn number(digits: &[u8]) -> Option<u64>
    ensures { result ≡ number_of digits.now }
{
    if digits.is_empty() || digits.len() > MOST_DIGITS {
        return None;
    }
    let mut value = 0;
    for digit in digits {
        if !digit.is_ascii_digit() {
            return None;
        }
        value = 10 * value + u64::from(*digit - b'0');
    }
    Some(value)
}

/// The number of a text of one decimal digit, where it is from `least` to `most`; none for any other text.
#[tactic(auto, unfolding(crate::specs::Parsing::digit_within))]
pub(crate) fn read_digit(text: &str, least: u8, most: u8) -> Option<u8>
    ensures { result ≡ digit_within least most text.now }
{
    let [byte] = text.as_bytes() else {
        return None;
    };
    let digit = byte.checked_sub(b'0')?;
    if least <= digit && digit <= most {
        Some(digit)
    } else {
        None
    }
}

/// Three numbers with commas between them, each at most `most`.
#[tactic(auto, unfolding(crate::specs::Parsing::three_of))]
pub(crate) fn three_numbers(text: &str, most: u32) -> Option<[u32; 3]>
    ensures { result ≡ three_of most text.now }
{
    let (first, rest) = comma_split(text)?;
    let (second, third) = comma_split(rest)?;
    Some([
        read_number(first, most)?,
        read_number(second, most)?,
        read_number(third, most)?,
    ])
}

/// What stands before the first comma, and after it.
fn comma_split(text: &str) -> Option<(&str, &str)>
    ensures { MatchOption result (mark_split 44 text.now ≡ None) (λ x. mark_split 44 text.now ≡ Some (x.0.now, x.1.now)) }
{
    text.split_once(',')
}

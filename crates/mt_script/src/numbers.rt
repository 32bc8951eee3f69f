//! Numbers of a line.
ghost use Rattle.std.specs.Prelude.{◌≡◌, ◌≤◌, ◌<◌, ◌^◌, length, IfSome, None, Some, if◌then◌else◌};
ghost use Rattle.std.specs.Char.{is_ascii_digit};
ghost use Rattle.std.specs.List.{list_all};
ghost use Rattle.mt_plain.specs.Script.{number_of_digits, read_number, read_small_number};

/// The number that up to 19 digits are: so many surely fit. Its loop is a function of its own, which is faster.
#[inline(never)]
fn digits(word: &[u8]) -> Option<u64>
    requires { length word.now ≤ 19 }
    ensures number { result ≡ if list_all is_ascii_digit word.now then Some (number_of_digits word.now) else None }
    ensures fits { IfSome result (λ number. number < 10 ^ length word.now) }
{
    let mut number = 0;
    for byte in word {
        // a byte below `0` wraps to a number above 9
        let digit = (*byte as u64).wrapping_sub(48);
        if digit > 9 {
            return None;
        }
        number = number * 10 + digit;
    }
    Some(number)
}

/// Reads a number of any length.
#[inline(never)]
fn long_number(word: &str) -> Option<u64>
    ensures { result ≡ read_number word.now }
{
    if word.len() > 20 || word.as_bytes().starts_with(b"+") {
        return None;
    }
    word.parse().ok()
}

/// Reads a number: 1 to 20 digits of a value that fits 64 bits.
#[inline(always)]
pub fn read_number(word: &str) -> Option<u64>
    ensures { result ≡ read_number word.now }
{
    match word.len() {
        1..=19 => digits(word.as_bytes()),
        _ => long_number(word),
    }
}

/// Reads a small number: 1 to 5 digits of a value that fits 16 bits.
pub fn read_small_number(word: &str) -> Option<u16>
    ensures { result ≡ read_small_number word.now }
{
    if word.len() > 5 {
        return None;
    }
    u16::try_from(read_number(word)?).ok()
}

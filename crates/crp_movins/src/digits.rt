//! Numbers in ASCII digits.

ghost use Rattle.std.specs.Prelude.{◌≡◌, ◌<◌, ◌≤◌, ◌^◌, IsTrue, length};
ghost use Rattle.std.specs.List.{list_all};
ghost use Rattle.std.specs.Char.{is_ascii_digit};
ghost use Rattle.crp_movins.specs.Digits.{number_of, counts};

/// The bytes are 1 to 10 digits, and write this number.
pub(crate) fn counts(bytes: &[u8], number: usize) -> bool
    ensures { result ≡ counts bytes.now number }
{
    if bytes.is_empty() || bytes.len() > 10 || !are_digits(bytes) {
        return false;
    }
    number_of(bytes) == number as u64
}

pub(crate) fn are_digits(bytes: &[u8]) -> bool
    ensures { result ≡ list_all is_ascii_digit bytes.now }
{
    bytes.iter().all(|b| b.is_ascii_digit())
}

pub(crate) fn number_of(bytes: &[u8]) -> u64
    requires short { length bytes.now ≤ 10 }
    requires digits { IsTrue (list_all is_ascii_digit bytes.now) }
    ensures value { result ≡ number_of bytes.now }
    ensures small { result < 10 ^ length bytes.now }
{
    let mut number = 0;
    for byte in bytes {
        number = number * 10 + u64::from(*byte - b'0');
    }
    number
}

//! Numbers in ASCII digits.

ghost use Rattle.std.specs.Prelude.{◌≡◌, ◌<◌, ◌^◌, IsTrue};
ghost use Rattle.std.specs.List.{list_all};
ghost use Rattle.std.specs.Char.{is_ascii_digit};
ghost use Rattle.crp_sizes.specs.Fields.{is_number, number_of};

/// The bytes are 1 to 4 digits.
pub fn is_number(bytes: &[u8]) -> bool
    ensures { result ≡ is_number bytes.now }
{
    !bytes.is_empty() && bytes.len() <= 4 && are_digits(bytes)
}

fn are_digits(bytes: &[u8]) -> bool
    ensures { result ≡ list_all is_ascii_digit bytes.now }
{
    bytes.iter().all(|b| b.is_ascii_digit())
}

/// The number that they write.
pub fn number_of(bytes: &[u8]) -> u16
    requires { IsTrue (is_number bytes.now) }
    ensures value { result ≡ number_of bytes.now }
    ensures small { result < 10 ^ 4 }
{
    let mut number = 0;
    for byte in bytes {
        number = number * 10 + u16::from(*byte - b'0');
    }
    number
}

ghost use Rattle.std.specs.Prelude.{◌≡◌, ◌≤◌};
ghost use Rattle.crp_cert.specs.Text.{first_row};

/// A version of the text of a certificate.
#[derive(Clone, Copy, Debug, Drop, PartialEq, Eq)]
pub enum Version {
    /// Rows of one height.
    One,
    /// A height for each row.
    Two,
    /// The same, and cuts may have their reasons.
    Three,
}

/// The number of the first row's line, from 1.
pub fn first_row(version: Version) -> u32
    ensures value { result ≡ first_row version }
    ensures few { result ≤ 5 }
{
    match version {
        Version::One => 4,
        Version::Two | Version::Three => 5,
    }
}

//! What a file looks like by its first bytes.
ghost use Rattle.std.specs.Prelude.{◌≡◌};
ghost use Rattle.crp_jobs.specs.Found.{begins_as_yard_list, found_in, text_in};

/// What a file looks like.
#[derive(Clone, Copy, Debug, PartialEq, Eq)]
pub enum Found {
    /// It has no bytes.
    Nothing,
    /// A spreadsheet's own file, or another archive.
    Archive,
    /// A PDF document.
    Pdf,
    /// A file that gzip made (RFC 1952).
    Gzip,
    /// A text in UTF-16, with its byte order mark.
    Utf16,
    /// An interchange.
    Interchange,
    /// A yard list.
    YardList,
    /// A report.
    Report,
    /// Certificates.
    Certificates,
}

// Whether a text begins with the first word of a yard list, as a spreadsheet may write it.
fn begins_as_yard_list(front: &[u8]) -> bool
    ensures { result ≡ begins_as_yard_list front.now }
{
    front.starts_with(b"block") || (front.starts_with(b"Block") || front.starts_with(b"BLOCK"))
}

// What a text looks like by its first bytes, of those that the program reads.
fn text_in(front: &[u8]) -> Option<Found>
    ensures { result ≡ text_in front.now }
{
    if front.starts_with(b"UNA") || front.starts_with(b"UNB") {
        return Some(Found::Interchange);
    }
    if begins_as_yard_list(front) {
        return Some(Found::YardList);
    }
    if front.starts_with(b"orders ") {
        return Some(Found::Report);
    }
    if front.starts_with(b"CRP-CERT ") {
        return Some(Found::Certificates);
    }
    None
}

/// What a file looks like by its first bytes, where that is one of a few kinds.
pub fn found_in(front: &[u8]) -> Option<Found>
    ensures { result ≡ found_in front.now }
{
    if front.is_empty() {
        return Some(Found::Nothing);
    }
    if front.starts_with(b"PK") {
        return Some(Found::Archive);
    }
    if front.starts_with(b"%PDF") {
        return Some(Found::Pdf);
    }
    if front.starts_with(&[0x1f, 0x8b]) {
        return Some(Found::Gzip);
    }
    if front.starts_with(&[0xff, 0xfe]) || front.starts_with(&[0xfe, 0xff]) {
        return Some(Found::Utf16);
    }
    text_in(front)
}

//! What is said of a file of one kind that stands in the place of another.
ghost use Rattle.std.specs.Prelude.{◌≡◌, option_map};
ghost use Rattle.crp_jobs.specs.Instead.{words_for_list, words_for_message, words_for_report, words_on};

use crate::kinds::{Found, found_in};

const EMPTY: &str = "the file is empty";

const PDF: &str = "the file begins with %PDF: it is a PDF document";

const GZIP: &str = "the file begins as gzip does: unpack it first";

const UTF_16: &str = "the file is UTF-16: save it as UTF-8";

const INTERCHANGE: &str =
    "the file begins as an interchange does (UNA, UNB): are the two files swapped?";

const YARD_LIST: &str = "the file begins as a yard list does: are the two files swapped?";

const REPORT: &str = "the file begins as a report does: are the files swapped?";

const CERTIFICATES: &str = "the file begins as certificates do: are the files swapped?";

// Of a file of this kind in the place of a list.
fn words_for_list(kind: Found) -> Option<&'static str>
    ensures { option_map (λ words. words.now) result ≡ words_for_list kind }
{
    match kind {
        Found::Nothing => Some(EMPTY),
        Found::Archive => Some(
            "the file begins with PK, as a spreadsheet's own file (xlsx, ods) does: save the sheet as CSV",
        ),
        Found::Pdf => Some(PDF),
        Found::Gzip => Some(GZIP),
        Found::Utf16 => Some(UTF_16),
        Found::Interchange => Some(INTERCHANGE),
        Found::YardList => None,
        Found::Report => Some(REPORT),
        Found::Certificates => Some(CERTIFICATES),
    }
}

// Of one in the place of a message.
fn words_for_message(kind: Found) -> Option<&'static str>
    ensures { option_map (λ words. words.now) result ≡ words_for_message kind }
{
    match kind {
        Found::Nothing | Found::Interchange => None,
        Found::Archive => Some(
            "the file begins with PK, as a spreadsheet's own file or another archive does: take the message itself",
        ),
        Found::Pdf => Some(PDF),
        Found::Gzip => Some(GZIP),
        Found::Utf16 => Some(UTF_16),
        Found::YardList => Some(YARD_LIST),
        Found::Report => Some(REPORT),
        Found::Certificates => Some(CERTIFICATES),
    }
}

// Of one in the place of a report.
fn words_for_report(kind: Found) -> Option<&'static str>
    ensures { option_map (λ words. words.now) result ≡ words_for_report kind }
{
    match kind {
        Found::Nothing => Some(EMPTY),
        Found::Archive => Some(
            "the file begins with PK, as a spreadsheet's own file or another archive does: take the report itself",
        ),
        Found::Pdf => Some(PDF),
        Found::Gzip => Some(GZIP),
        Found::Utf16 => Some(UTF_16),
        Found::Interchange => Some(INTERCHANGE),
        Found::YardList => Some(YARD_LIST),
        Found::Report => None,
        Found::Certificates => Some(CERTIFICATES),
    }
}

/// The words on what stands in the place of a yard list or a list of sizes, where its first bytes say that.
pub(crate) fn words_on_list(front: &[u8]) -> Option<&'static str>
    ensures { option_map (λ words. words.now) result ≡ words_on words_for_list front.now }
{
    words_for_list(found_in(front)?)
}

/// The words on what stands in the place of a message.
pub(crate) fn words_on_message(front: &[u8]) -> Option<&'static str>
    ensures { option_map (λ words. words.now) result ≡ words_on words_for_message front.now }
{
    words_for_message(found_in(front)?)
}

/// The words on what stands in the place of a report.
pub(crate) fn words_on_report(front: &[u8]) -> Option<&'static str>
    ensures { option_map (λ words. words.now) result ≡ words_on words_for_report front.now }
{
    words_for_report(found_in(front)?)
}

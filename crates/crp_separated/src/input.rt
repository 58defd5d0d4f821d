//! A file that is read.
ghost use Rattle.std.specs.Prelude.{◌≡◌};
ghost use Rattle.crp_separated.specs.Inputs.{comma_list_of, of_input, other_source};

use crate::separated::Separated;
use crate::translating::Separators;
use crate::unmarked::Unmarked;
use crp_plan::{Failure, Source};

/// A file that is read: a list, seen with another byte between its fields, or any other file.
#[derive(Drop)]
pub enum ListInput<R> {
    /// A list.
    List(Separated<Unmarked<R>>),
    /// Another file.
    Other(R),
}

impl<R: Source> ListInput<R> {
    /// The file, as the list with commas that has the records of the list with this byte between its fields, a byte of ASCII that is
    /// neither a quote nor ends a line. A list with commas is as it is, with its byte order mark.
    pub fn with_commas(file: R, separator: u8) -> ListInput<R>
        ensures file { other_source result ≡ file }
        ensures bytes { ⟦<ListInput<R> as Source>⟧.remaining result ≡ comma_list_of separator (R.remaining file) }
        ensures count { ⟦<ListInput<R> as Source>⟧.failures result ≡ R.failures file }
        ensures interrupted { ⟦<ListInput<R> as Source>⟧.interrupted result ≡ R.interrupted file }
    {
        if separator == b',' {
            return ListInput::Other(file);
        }
        let separators = Separators {
            from: separator,
            to: b',',
        };
        ListInput::List(Separated::new(Unmarked::new(file), separators))
    }

    /// The file itself, to be closed.
    pub fn into_file(self) -> R
        ensures file { result ≡ other_source self }
        ensures count { R.failures result ≡ ⟦<ListInput<R> as Source>⟧.failures self }
    {
        match self {
            ListInput::List(list) => list.source.source,
            ListInput::Other(file) => file,
        }
    }
}

impl<R: Source> Source for ListInput<R> {
    ghost remaining = { λ input. of_input ⟦<Separated<Unmarked<R>> as Source>⟧.remaining R.remaining input };

    ghost failures = { λ input. of_input ⟦<Separated<Unmarked<R>> as Source>⟧.failures R.failures input };

    ghost interrupted = { λ input. of_input ⟦<Separated<Unmarked<R>> as Source>⟧.interrupted R.interrupted input };

    fn read(&mut self, buf: &mut [u8]) -> Result<usize, Failure> {
        match self {
            ListInput::List(list) => list.read(buf),
            ListInput::Other(file) => file.read(buf),
        }
    }
}

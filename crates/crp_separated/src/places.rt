//! Where in a list a byte stands.

/// Where in a list the next byte stands.
#[derive(Clone, Copy, Debug, PartialEq, Eq)]
pub enum Place {
    /// Before the first byte of a field, or of a record.
    FieldStart,
    /// In a field without quotes around it.
    Field,
    /// Between the quotes of a field.
    Quoted,
    /// Behind a quote between quotes, which ends the field or stands for a quote with the next one.
    QuoteEnd,
}

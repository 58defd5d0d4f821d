//! Whether the message and the yard have what the words name.
use crate::message::{Says, said_by};
use crp_plan::BayName;
use crp_yard::Yard;
use edi_text::Segments;

/// Whether a message has this reference.
pub(crate) fn has_message(segments: &Segments, reference: &[u8]) -> bool {
    for i in 0..segments.count() {
        if let Says::Begins(found) = said_by(segments, i + 1) {
            if found == reference {
                return true;
            }
        }
    }
    false
}

/// Whether a bay of the yard has this name.
pub(crate) fn has_bay(yard: &Yard, name: &BayName) -> bool {
    for bay in 0..yard.count() {
        if yard.name(bay) == name {
            return true;
        }
    }
    false
}

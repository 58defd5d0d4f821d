//! What to look at after a fault of a run over a yard, or of what it reads.
ghost use Rattle.crp_jobs.specs.Advice.{IsPlainLine};

use crate::advice::MEMORY;
use crp_movins::MovinsFault;
use crp_report::{Fault, Input, Output};
use crp_yard::YardFault;
use edi_text::EdiFault;

const YARD_NOT_READ: &str =
    "the yard list could not be read: it must be there, be a file and no folder, and you must be allowed to read it";

// Of an interchange.
fn advice_on_interchange(fault: &EdiFault) -> &'static str
    ensures { IsPlainLine result.now }
{
    match fault {
        EdiFault::NoSegment { .. } => {
            "the message must have a segment: the file is empty, or has nothing after UNA"
        }
        EdiFault::Advice { .. } => {
            "UNA must name different signs that are no letters, digits or control characters; usual is UNA:+.? '"
        }
        EdiFault::Unfinished { .. } => {
            "the message ends inside a segment or UNA: it is cut off, its last terminator (') is missing, or blanks follow its end"
        }
        EdiFault::Tag { .. } => {
            "a segment must begin here with three capital letters, such as LOC: look for a stray ', a blank or a byte order mark"
        }
        EdiFault::Release { .. } => {
            "the message ends with a release character (usually ?), and another character must follow it"
        }
        EdiFault::Control { .. } => {
            "a line end, tab or other control character (as Ctrl-Z) stands in or behind a segment; line ends may stand between two"
        }
        EdiFault::TooLong { .. } => "a message may have at most 8388608 bytes",
        EdiFault::Memory => MEMORY,
    }
}

// Of a message.
fn advice_on_message(fault: &MovinsFault) -> &'static str
    ensures { IsPlainLine result.now }
{
    match fault {
        MovinsFault::NoInterchangeHeader { .. } => {
            "the first segment must be UNB, the header of the interchange"
        }
        MovinsFault::InterchangeHeader { .. } => {
            "UNB must have at least five elements, and the fifth, the control reference, must not be empty"
        }
        MovinsFault::FunctionalGroup { .. } => {
            "UNG and UNE are not read: the messages must come without functional groups"
        }
        MovinsFault::OutOfPlace { .. } => {
            "UNB comes first, then messages from UNH (with a reference) to UNT, then UNZ; nothing else stands outside messages"
        }
        MovinsFault::MessageCount { .. } => {
            "the message's trailer (UNT) counts another number of segments than the message has (UNH and UNT count too)"
        }
        MovinsFault::MessageReference { .. } => {
            "the message's trailer (UNT) must repeat the reference of the message's header (UNH)"
        }
        MovinsFault::InterchangeCount { .. } => {
            "the interchange's trailer (UNZ) counts another number of messages than there are"
        }
        MovinsFault::InterchangeReference { .. } => {
            "the interchange's trailer (UNZ) must repeat the control reference of its header (UNB)"
        }
        MovinsFault::AfterTrailer { .. } => {
            "nothing may follow UNZ: put a second interchange into a file of its own"
        }
        MovinsFault::MessageType { .. } => {
            "the message must be a MOVINS of release D.95B: the second element of UNH must be MOVINS:D:95B:UN"
        }
        MovinsFault::SlotNumber { .. } => {
            "the ship's slot in this LOC must be seven digits (bay three, row two, tier two), or six (bay two)"
        }
        MovinsFault::OrderedTwice { .. } => {
            "this container is ordered already: each may be ordered only once in the file"
        }
        MovinsFault::TooManyOrders { .. } => "a file may order at most 10000 containers",
        MovinsFault::Memory => MEMORY,
    }
}

// Of a yard list.
fn advice_on_yard(fault: &YardFault) -> &'static str
    ensures { IsPlainLine result.now }
{
    match fault {
        YardFault::Header { .. } => "the first record must be block,bay,row,tier,container",
        YardFault::Fields { .. } => {
            "a record has five fields: the block 1 to 17 ASCII characters, no spaces; the container 1 to 35 bytes, no controls"
        }
        YardFault::Digits { .. } => {
            "bay, row and tier must be numbers of one to four digits, and the bay must not be 0"
        }
        YardFault::Outside { .. } => {
            "the bays have no such row or tier (both from 1): look at --rows and --tiers (by default 6 and 5), --heights or --sizes"
        }
        YardFault::PlaceTaken { .. } => {
            "a record before this one names the same place (block, bay, row and tier)"
        }
        YardFault::Floating { .. } => {
            "nothing stands below this container: the record of the tier beneath it is missing"
        }
        YardFault::StandsAlready { .. } => {
            "a record before this one names the same container: each may stand in one place only"
        }
        YardFault::TooMany { .. } => "a yard list may have at most 20000 containers",
        YardFault::Read => YARD_NOT_READ,
        YardFault::TooLarge => "a yard list may have at most 8388608 bytes",
        YardFault::Memory => MEMORY,
    }
}

/// Of a run over a yard.
pub(crate) fn advice_on_run(fault: &Fault) -> &'static str
    ensures { IsPlainLine result.now }
{
    match fault {
        Fault::Yard(fault) => advice_on_yard(fault),
        Fault::Interchange(fault) => advice_on_interchange(fault),
        Fault::Message(fault) => advice_on_message(fault),
        Fault::Read(Input::Yard) => YARD_NOT_READ,
        Fault::Read(Input::Movins) => {
            "the message could not be read: it must be there, be a file and no folder, and you must be allowed to read it"
        }
        Fault::Write(Output::Report) => {
            "the report could not be written: its disk must not be full, and the program that reads it must not have ended"
        }
        Fault::Write(Output::Certificates) => {
            "the certificates could not be written: the folder must be there and let you write, and its disk must not be full"
        }
        Fault::Write(Output::YardAfter) => {
            "the yard after the plans could not be written: the folder must be there and let you write, and its disk not be full"
        }
        Fault::Memory => MEMORY,
    }
}

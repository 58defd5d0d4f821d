use super::{END, HEADER, SEGMENTS, assert_counts, fault_of, first_fault, joined, six_load_orders};
use crate::compare::{assert_same, assert_same_at};
use crp_movins::MovinsFault;
use edi_text::{EdiFault, MAX_TEXT};
use std::alloc::{AllocError, Global};
use std::process::Abort;
use std::test::Fail;

/// How many terminators there are, each of which ends a segment.
fn terminators(text: &[u8]) -> usize {
    let mut count: usize = 0;
    for byte in text {
        if *byte == b'\'' {
            count = count.saturating_add(1);
        }
    }
    count
}

/// The fault of the example cut here, where the text alone has one: it ends inside of a segment, or has none.
fn cut_fault(front: &[u8]) -> Option<EdiFault> {
    match front {
        [] => Some(EdiFault::NoSegment { offset: 0 }),
        [.., b'\''] => None,
        [.., b'\n'] => None,
        _ => Some(EdiFault::Unfinished {
            offset: front.len(),
        }),
    }
}

/// The fault of the example cut behind a segment: the next one is missing, but behind the last.
fn missing(front: &[u8]) -> Option<MovinsFault> {
    let segments = terminators(front);
    if segments < SEGMENTS {
        let segment = segments.saturating_add(1);
        Some(MovinsFault::OutOfPlace { segment })
    } else {
        None
    }
}

/// The example cut here is refused where it ends, or is read.
fn assert_cut(rt: &(impl Abort + AllocGlobal), front: &[u8]) -> Result<(), EdiFault> {
    let length = front.len();
    let fault = first_fault(rt.alloc(), front);
    assert_same_at(rt, &fault, &cut_fault(front), &length);
    if fault.is_none() {
        let fault = fault_of(rt.alloc(), front)?;
        assert_same_at(rt, &fault, &missing(front), &length);
    }
    Ok(())
}

#[test]
fn cut_at_every_length(rt: HostRuntime) -> Result<(), Fail> {
    let text = six_load_orders(rt.alloc())?;
    for length in 0..text.len() {
        assert_cut(&rt, &text[..length])?;
    }
    assert_same(&rt, &terminators(&text), &SEGMENTS);
    assert_counts(&rt, &text, (6, 0))
}

/// A message whose one segment is so long that the text has this length.
fn with_length(alloc: Global, length: usize) -> Result<Vec<u8>, AllocError> {
    let mut text = joined(alloc, &[HEADER, b"UNH+1+MOVINS:D:95B:UN'FTX+"])?;
    let back = joined(alloc, &[b"'UNT+3+1'", END])?;
    let used = text.len().saturating_add(back.len());
    let data = vec![in alloc; b'A'; length.saturating_sub(used)]?;
    text.extend_from_slice(&data)?;
    text.extend_from_slice(&back)?;
    Ok(text)
}

#[test]
fn eight_mebibytes_are_read(rt: HostRuntime) -> Result<(), Fail> {
    let mut text = with_length(rt.alloc(), MAX_TEXT)?;
    assert_same(&rt, &text.len(), &8388608);
    assert_counts(&rt, &text, (0, 0))?;
    text.push(b'\n')?;
    let fault = EdiFault::TooLong { offset: 8388608 };
    assert_same(&rt, &first_fault(rt.alloc(), &text), &Some(fault));
    Ok(())
}

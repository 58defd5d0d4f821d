use crate::calls::read_segments;
use crate::compare::{assert_at, assert_same};
use edi_text::{EdiFault, MAX_TEXT, Segment, Segments};
use std::alloc::{AllocError, Global};
use std::process::Abort;
use std::test::Fail;

/// A whole interchange, with a line end after each segment.
const SIX_LOAD_ORDERS: &[u8] = b"UNB+UNOA:1+YARD+SHIP+250101:0800+1'
UNH+1+MOVINS:D:95B:UN'
BGM++8+9'
HAN+LOA'
LOC+147+0010182'
EQD+CN+C1'
LOC+147+0010184'
EQD+CN+C2'
LOC+147+0010186'
EQD+CN+C3'
LOC+147+0010188'
EQD+CN+C4'
LOC+147+0010190'
EQD+CN+C5'
LOC+147+0010192'
EQD+CN+C6'
UNT+16+1'
UNZ+1+1'
";

/// A text, how many segments it spells, and one of them: its number, its tag, how many elements it has,
/// and the bytes of some components, each behind the numbers of its element and of itself in it.
#[derive(Drop)]
struct Spelled {
    text: &'static [u8],
    count: usize,
    number: usize,
    tag: &'static [u8],
    elements: usize,
    components: &'static [(usize, usize, &'static [u8])],
}

fn says(segment: &Segment<'_>, element: usize, component: usize, want: &[u8]) -> bool {
    segment.component(element, component) == want
}

/// The segment has this tag, so many elements, and these components.
fn is_segment(segment: &Segment<'_>, want: &Spelled) -> bool {
    let mut same = segment.tag() == want.tag && segment.elements() == want.elements;
    for (element, component, bytes) in want.components {
        same = same && says(segment, *element, *component, bytes);
    }
    same
}

/// There are so many segments, and one of them is as wanted.
fn are_spelled(segments: &Segments, want: &Spelled) -> bool {
    let Some(segment) = segments.segment(want.number) else {
        return false;
    };
    segments.count() == want.count && is_segment(&segment, want)
}

/// The text spells what is wanted.
fn assert_spelled(rt: &(impl Abort + AllocGlobal), want: &Spelled) -> Result<(), EdiFault> {
    let segments = read_segments(rt.alloc(), want.text)?;
    let spelled = are_spelled(&segments, want);
    assert_at(rt, spelled, &(want.tag, want.text));
    Ok(())
}

fn has(segments: &Segments, number: usize) -> bool {
    segments.segment(number).is_some()
}

/// Whether the text spells a list without a segment of this number.
fn lacks(alloc: Global, text: &[u8], number: usize) -> Result<bool, EdiFault> {
    let segments = read_segments(alloc, text)?;
    Ok(!has(&segments, number))
}

/// What the whole interchange spells.
const WHOLE: [Spelled; 3] = [
    Spelled {
        text: SIX_LOAD_ORDERS,
        count: 18,
        number: 1,
        tag: b"UNB",
        elements: 5,
        components: &[(1, 1, b"UNOA"), (4, 2, b"0800")],
    },
    Spelled {
        text: SIX_LOAD_ORDERS,
        count: 18,
        number: 3,
        tag: b"BGM",
        elements: 3,
        components: &[(1, 1, b""), (3, 1, b"9"), (3, 2, b""), (0, 1, b"")],
    },
    Spelled {
        text: SIX_LOAD_ORDERS,
        count: 18,
        number: 18,
        tag: b"UNZ",
        elements: 2,
        components: &[],
    },
];

/// A released plus belongs to the component; where a space releases, it parts two elements.
const RELEASED: [Spelled; 2] = [
    Spelled {
        text: b"EQD+CN+AB?+C1'",
        count: 1,
        number: 1,
        tag: b"EQD",
        elements: 2,
        components: &[(1, 1, b"CN"), (2, 1, b"AB+C1"), (3, 1, b"")],
    },
    Spelled {
        text: b"UNA:+.  'EQD+CN+AB?+C1'",
        count: 1,
        number: 1,
        tag: b"EQD",
        elements: 3,
        components: &[(1, 1, b"CN"), (2, 1, b"AB?"), (3, 1, b"C1")],
    },
];

#[test]
fn a_released_sign_parts_nothing(rt: HostRuntime) -> Result<(), Fail> {
    for row in &RELEASED {
        assert_spelled(&rt, row)?;
    }
    Ok(())
}

#[test]
fn reads_a_whole_interchange(rt: HostRuntime) -> Result<(), Fail> {
    for row in &WHOLE {
        assert_spelled(&rt, row)?;
    }
    for number in [0, 19] {
        let lacks = lacks(rt.alloc(), SIX_LOAD_ORDERS, number)?;
        assert_at(&rt, lacks, &number);
    }
    Ok(())
}

fn first_fault(alloc: Global, text: &[u8]) -> Option<EdiFault> {
    read_segments(alloc, text).err()
}

fn assert_fault(rt: &(impl Abort + AllocGlobal), text: &[u8], fault: EdiFault) {
    assert_same(rt, &first_fault(rt.alloc(), text), &Some(fault));
}

#[test]
fn reads_no_longer_text(rt: HostRuntime) -> Result<(), Fail> {
    let mut text = vec![in rt.alloc(); b'A'; MAX_TEXT]?;
    assert_fault(&rt, &text, EdiFault::Unfinished { offset: MAX_TEXT });
    text.push(b'A')?;
    assert_fault(&rt, &text, EdiFault::TooLong { offset: MAX_TEXT });
    Ok(())
}

fn assert_text(
    rt: &(impl Abort + AllocGlobal),
    fault: EdiFault,
    expected: &str,
) -> Result<(), AllocError> {
    let text = format!(in rt.alloc(); "{fault}")?;
    assert_same(rt, &text.as_str(), &expected);
    Ok(())
}

#[test]
fn faults_show_their_code(rt: HostRuntime) -> Result<(), Fail> {
    let texts = [
        (
            EdiFault::TooLong { offset: 8388608 },
            "E7 at offset 8388608",
        ),
        (EdiFault::Memory, "no memory is left"),
    ];
    for (fault, want) in texts {
        assert_text(&rt, fault, want)?;
    }
    Ok(())
}

//! Heads with a byte changed, or cut.
use super::heads::{assert_refused, refusal};
use super::{SIX_CONTAINERS, assert_fault, fault_at, joined, line_after};
use crate::compare::assert_same_at;
use crp_cert::CertFault;
use std::alloc::{AllocError, Global};
use std::process::Abort;
use std::test::Fail;

/// The text with another byte in one place.
fn with_byte(alloc: Global, text: &[u8], at: usize, other: u8) -> Result<Vec<u8>, AllocError> {
    let mut changed = Vec::new(alloc);
    for (i, byte) in text.iter().enumerate() {
        changed.push(if i == at { other } else { *byte })?;
    }
    Ok(changed)
}

/// The text cut to this length is refused with the fault of the line where it ends.
fn assert_cut(rt: &(impl Abort + AllocGlobal), cut: &[u8]) {
    let length = cut.len();
    let fault = fault_at(line_after(cut));
    assert_same_at(rt, &refusal(rt.alloc(), cut), &Some(fault), &length);
}

#[test]
fn head_cut_at_every_length(rt: HostRuntime) -> Result<(), Fail> {
    let text = joined(rt.alloc(), &SIX_CONTAINERS)?;
    for length in 0..text.len() {
        assert_cut(&rt, &text[..length]);
    }
    assert_refused(&rt, &text, None);
    Ok(())
}

/// The line of the byte in this place.
fn line_at(text: &[u8], at: usize) -> u32 {
    line_after(text.get(..at).unwrap_or(text))
}

/// With another byte in this place the head is refused with this fault, or is read.
fn assert_changed(
    rt: &(impl Abort + AllocGlobal),
    text: &[u8],
    at: usize,
    byte: u8,
    fault: Option<CertFault>,
) -> Result<(), AllocError> {
    let changed = with_byte(rt.alloc(), text, at, byte)?;
    assert_fault(rt, refusal(rt.alloc(), &changed), fault, &changed);
    Ok(())
}

#[test]
fn each_byte_of_a_head_changed(rt: HostRuntime) -> Result<(), Fail> {
    let text = joined(rt.alloc(), &SIX_CONTAINERS)?;
    let block = b"CRP-CERT 1\nbay ".len();
    for at in 0..text.len() {
        for byte in [0x00, 0x27, 0x2c, 0xff] {
            let fault = if at == block && (byte == 0x27 || byte == 0x2c) {
                None
            } else {
                Some(fault_at(line_at(&text, at)))
            };
            assert_changed(&rt, &text, at, byte, fault)?;
        }
    }
    Ok(())
}

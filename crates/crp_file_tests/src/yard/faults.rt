use crate::compare::assert_same;
use crp_sizes::SizesFault;
use crp_yard::YardFault;
use std::alloc::AllocError;
use std::process::Abort;
use std::test::Fail;

fn assert_text(
    rt: &(impl Abort + AllocGlobal),
    fault: YardFault,
    expected: &str,
) -> Result<(), AllocError> {
    let text = fault.to_string(rt.alloc())?;
    assert_same(rt, &text.as_str(), &expected);
    Ok(())
}

#[test]
fn texts_of_faults(rt: HostRuntime) -> Result<(), Fail> {
    let faults = [
        (YardFault::TooMany { record: 20002 }, "Y8 at record 20002"),
        (YardFault::Read, "Y9 at record 0"),
        (YardFault::TooLarge, "Y10 at record 0"),
        (YardFault::Memory, "no memory is left"),
    ];
    for (fault, want) in faults {
        assert_text(&rt, fault, want)?;
    }
    let faults = [
        (SizesFault::Read, "Z7 at record 0"),
        (SizesFault::Memory, "no memory is left"),
    ];
    for (fault, want) in faults {
        let text = fault.to_string(rt.alloc())?;
        assert_same(&rt, &text.as_str(), &want);
    }
    Ok(())
}

use crate::compare::assert_same;
use crp_plan::Words;
use std::test::Fail;

#[test]
fn one_worker_sees_offers_and_claims(rt: HostRuntime) -> Result<(), Fail> {
    let mut words = Words::start(5, 65);
    assert_same(&rt, &words.see(), &5);
    words.offer(3);
    words.offer(4);
    assert_same(&rt, &words.see(), &3);
    assert_same(&rt, &words.view.mine, &3);
    let answers = [true, true, false];
    for granted in answers {
        assert!(rt; words.spent < 3 && words.view.granted < 3 && words.view.refused < 3);
        assert_same(&rt, &words.claim(2), &granted);
    }
    assert_same(&rt, &words.spent, &3);
    assert_same(&rt, &words.view.granted, &2);
    assert_same(&rt, &words.view.refused, &1);
    Ok(())
}

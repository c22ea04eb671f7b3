use heco_sched::{Drawn, First, Last, Picker};

#[test]
fn what_pickers_answer(rt: HostRuntime) {
    assert_eq!(rt; First.pick(5), 0);
    assert_eq!(rt; Last.pick(5), 4);
    let mut drawn = Drawn { state: 7 };
    assert_eq!(rt; drawn.pick(4), 2);
    assert_eq!(rt; drawn.pick(5), 1);
    assert_eq!(rt; drawn.pick(9), 0);
    assert_eq!(rt; drawn.pick(1000), 673);
}

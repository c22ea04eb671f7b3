use super::*;
use heco_nums::Preset;
use std::test::Fail;

#[test]
fn the_table_of_bounds(rt: HostRuntime) -> Result<(), Fail> {
    let rows = [
        (1u8, 4754u128, 715488u128, 643u128),
        (2, 17604, 5723904, 1157),
        (3, 17604, 11447808, 1157),
        (4, 4489284, 1459640064, 294917),
        (5, 622601, 5838560256, 163843),
    ];
    for (id, fresh_bound, switch_bound, message) in rows {
        let p = Preset::by_id(id).expect(&rt, "a preset");
        assert_eq!(rt; fresh(&p), fresh_bound);
        assert_eq!(rt; turned(&p, 7), 7 + switch_bound);
        let gain = multiplied(&p, 1, 0) - multiplied(&p, 0, 0);
        assert_eq!(rt; gain, u128::from(p.n) * (message + 1));
    }
    let p8 = Preset::by_id(1).expect(&rt, "a preset");
    assert_eq!(rt; added(4754, 4754), 9508);
    assert_eq!(rt; multiplied(&p8, 4754, 4754), 97975829);
    assert_eq!(rt; scaled_by(&p8, 200, 10), 570);
    assert_eq!(rt; shifted(&p8, 10), 138);
    assert_eq!(rt; weighed(1015, 4754), 4825310);
    assert!(rt; passes(1 << 57));
    assert!(rt; !passes((1 << 57) - 1));
    Ok(())
}

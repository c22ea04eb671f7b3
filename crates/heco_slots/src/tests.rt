use crate::SlotTable;
use heco_nums::Preset;
use std::test::Fail;

#[test]
fn the_first_slot_of_the_smallest_preset(rt: HostRuntime) -> Result<(), Fail> {
    let p = Preset::by_id(1).ok_or("no preset")?;
    let table = SlotTable::build(rt.alloc(), &p)?;
    assert_eq!(rt; p.n, 16);
    assert_eq!(rt; p.slots, 8);
    assert_eq!(rt; p.t, 257);
    let v = [1, 0, 0, 0, 0, 0, 0, 0];
    let mut m = [0; 16];
    table.encode(&v, &mut m);
    assert_eq!(rt;
        m,
        [
            241, 15, 2, 223, 64, 197, 249, 136, 1, 240, 32, 227, 253, 68, 129, 120
        ]
    );
    let mut back = [0; 8];
    table.decode(&m, &mut back);
    assert_eq!(rt; back, v);
    Ok(())
}

#[test]
fn both_rows_of_the_smallest_preset(rt: HostRuntime) -> Result<(), Fail> {
    let p = Preset::by_id(1).ok_or("no preset")?;
    let table = SlotTable::build(rt.alloc(), &p)?;
    assert_eq!(rt; (p.n, p.slots, p.t), (16, 8, 257));
    let v = [1, 2, 3, 4, 5, 6, 7, 8];
    let w = [10, 20, 30, 40, 50, 60, 70, 256];
    let mut m = [0; 16];
    table.encode_two(&v, &w, &mut m);
    assert_eq!(rt;
        m,
        [
            100, 244, 17, 204, 136, 251, 184, 36, 212, 46, 150, 65, 190, 227, 21, 163
        ]
    );
    let (mut first, mut second) = ([0; 8], [0; 8]);
    table.decode_two(&m, &mut first, &mut second);
    assert_eq!(rt; (first, second), (v, w));
    assert_eq!(rt;
        table.vector_weight(&[2, 3, 0, 0, 0, 0, 0, 0], &mut m),
        1015
    );
    Ok(())
}

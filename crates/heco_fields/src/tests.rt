use super::*;
use heco_nums::Bytes;
use std::test::Fail;

fn left(read: Result<(u8, &[u8]), Fault>) -> u64 {
    match read {
        Err(Fault::Broken { left }) => left,
        _ => 99,
    }
}

#[test]
fn fields_are_put_and_read(rt: HostRuntime) -> Result<(), Fail> {
    let mut out = Bytes::new(rt.alloc());
    put_header(&mut out, b"HCIR".as_slice(), 3)?;
    put_u16(&mut out, 258)?;
    put_u32(&mut out, 16909060)?;
    put_u64(&mut out, 72623859790382856)?;
    put_i8(&mut out, -128)?;
    let bytes = [
        72, 67, 73, 82, 1, 3, 1, 2, 1, 2, 3, 4, 1, 2, 3, 4, 5, 6, 7, 8, 128,
    ];
    assert_eq!(rt; out.as_slice(), bytes.as_slice());
    assert_eq!(rt; left(header_at(bytes.as_slice(), b"HSEC".as_slice())), 21);
    assert_eq!(rt; left(header_at(&bytes[..5], b"HCIR".as_slice())), 0);
    assert_eq!(rt; left(u8_within(&bytes[5..], 1, 2)), 16);
    assert_eq!(rt; left(u8_within(&bytes[5..], 4, 5)), 16);
    let second = [72, 67, 73, 82, 2, 3];
    assert_eq!(rt; left(header_at(second.as_slice(), b"HCIR".as_slice())), 2);
    match versioned_at(second.as_slice(), b"HCIR".as_slice(), 2) {
        Ok((header, rest)) => {
            assert_eq!(rt; header.version, 2);
            assert_eq!(rt; header.preset, 3);
            assert!(rt; rest.is_empty());
        }
        Err(_) => assert!(rt; false),
    }
    match i8_at(&bytes[20..]) {
        Ok((value, rest)) => {
            assert_eq!(rt; value, -128);
            assert!(rt; rest.is_empty());
        }
        Err(_) => assert!(rt; false),
    }
    Ok(())
}

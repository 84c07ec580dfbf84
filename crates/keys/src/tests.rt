use crate::Key;
use std::test::Fail;

// By hand: 300 is 2 * 128 + 44, 7 is one more than 6, and nobody's number becomes 0.
#[test]
fn the_bytes_of_numbers(rt: HostRuntime) -> Result<(), Fail> {
    let mut key = Key::over(Vec::new(rt.alloc()));
    key.put(300)?;
    key.put_turned(6)?;
    key.put_turned(u64::MAX)?;
    key.put_all(&[1, 128])?;
    key.put_each(b"ab")?;
    let bytes = key.into_bytes();
    assert_eq!(rt;
        bytes.as_slice(),
        [172, 2, 7, 0, 1, 128, 1, b'a', b'b'].as_slice()
    );
    let again = Key::over(bytes).into_bytes();
    assert_eq!(rt; again.len(), 0);
    Ok(())
}

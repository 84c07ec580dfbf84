use lwp_types::Sink;
use std::test::Fail;
use streams::*;

#[test]
fn counts_what_it_takes(rt: HostRuntime) -> Result<(), Fail> {
    let mut sink = CountSink::new();
    for text in [b"to".as_slice(), b"", b"and fro"] {
        sink.write(text).ok().ok_or("taken")?;
    }
    assert_eq!(rt; sink.count(), 9);
    Ok(())
}

// Texts that are computed.
use lwp_types::NoMemory;
use text_store::TextStore;

fn is_kept(store: &TextStore, bytes: &[u8]) -> Result<bool, NoMemory> {
    Ok(match store.keep(bytes)? {
        Some(text) => text.equals(bytes),
        None => false,
    })
}

#[test]
fn a_text_is_kept_unless_it_is_too_long(rt: HostRuntime) {
    let store = TextStore::new(rt.alloc());
    assert!(rt; is_kept(&store, b"12 of 13").unwrap_or(false));
    assert!(rt; is_kept(&store, &[b'x'; 240]).unwrap_or(false));
    assert!(rt; !is_kept(&store, &[b'x'; 241]).unwrap_or(true));
    assert!(rt; !is_kept(&store, b"two\nlines").unwrap_or(true));
}

//! A reader at its places.

use wasm_bytes::Reader;

#[test]
fn the_end_of_a_block_is_seen(rt: HostRuntime) {
    let mut reader = Reader::new(&[0x80, 0x01]);
    let before = reader.is_at_end();
    let number = reader.u32();
    assert!(rt; !before && number == Ok(128) && reader.is_at_end());
}

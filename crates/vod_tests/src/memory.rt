//! Want of memory: a refusal, and no abort.

use std::test::Fail;
use vod_deck::{MemDeck, Room};
use vod_io::{MemSink, Memory};
use vod_thin_code::Frame;

// More bytes than there are.
const TOO_MUCH: usize = 1 << 62;

#[test]
fn too_much_room_is_refused(rt: HostRuntime) -> Result<(), Fail> {
    let alloc = rt.alloc();
    assert!(rt; MemSink::new(alloc, TOO_MUCH, Vec::new(alloc)).err() == Some(Memory));
    assert!(rt; Frame::with_room(alloc, TOO_MUCH).is_err());
    for (bytes, said, calls) in [(TOO_MUCH, 0, 0), (0, TOO_MUCH, 0), (0, 0, TOO_MUCH)] {
        let room = Room { bytes, said, calls };
        let made = MemDeck::new(alloc, Vec::new(alloc), room, Vec::new(alloc), None);
        assert!(rt; made.err() == Some(Memory), "{bytes} {said} {calls}");
    }
    Ok(())
}

//! The line of an event that no run of the program has yet.
use reply_text::event_line;
use sheaf_words::Event;
use std::alloc::AllocError as NoMemory;

#[test]
fn the_line_of_a_pair_names_its_version_and_its_cells(rt: HostRuntime) -> Result<(), NoMemory> {
    let mut out = Vec::new(rt.alloc());
    let pair = Event::Pair { v: 3, x: 0, y: 10 };
    event_line(rt.alloc(), 0, 3, &pair, &mut out)?;
    assert!(rt; out.as_slice() == b"pair 3 0 10\n".as_slice());
    Ok(())
}

use dali_base::{OutOfMemory, Text};
use dali_follow::{FollowEnd, follow_stream};
use dali_outside::{Faults, MemSite, MemSource};
use std::alloc::Global;

/// The frames of PART A, PART B and ISSUE A MXN 100, as their journal ships them.
pub(crate) const FRAMES: [&[u8]; 3] = [
    b"\0\0\0\0\0\0\0\x01\0\0\0\x11\x01\0\x0d080000,PART,A\0",
    b"\0\0\0\0\0\0\0\x02\0\0\0\x11\x01\0\x0d080000,PART,B\0",
    b"\0\0\0\0\0\0\0\x03\0\0\0\x1a\x01\0\x16080001,ISSUE,A,MXN,100\0",
];

/// The journal of these three commands, up to its closed gate.
pub(crate) const JOURNAL: &[u8] = b"DALI-JOURNAL\0\0\0\x01\
\x01\0\0\0\x11\x01\0\x0d080000,PART,A\0\
\x01\0\0\0\x11\x01\0\x0d080000,PART,B\0\
\x01\0\0\0\x1a\x01\0\x16080001,ISSUE,A,MXN,100\0\0";

/// The head of a journal of edition 1.
pub(crate) const HEADER: &[u8] = b"DALI-JOURNAL\0\0\0\x01";

/// These pieces, one behind the other.
pub(crate) fn joined(alloc: Global, pieces: &[&[u8]]) -> Result<Text, OutOfMemory> {
    let mut text = Text::new(alloc);
    for piece in pieces {
        text.add(piece)?;
    }
    Ok(text)
}

/// A site of so many bytes, of which the first are these and the others 0.
pub(crate) fn site_of(alloc: Global, first: &[u8], size: usize) -> Result<MemSite, OutOfMemory> {
    let mut image = joined(alloc, &[first])?;
    for _ in image.len()..size {
        image.push(0)?;
    }
    MemSite::from_image(alloc, image, 64, 64, 256, Faults::new(alloc))
}

/// How following this stream over the site ends. The source gives seven bytes a take.
pub(crate) fn follow(alloc: Global, stream: Text, site: &mut MemSite) -> FollowEnd {
    let mut source = MemSource::new(stream, 7, Faults::new(alloc));
    follow_stream(alloc, &mut source, site)
}

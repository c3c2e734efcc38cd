ghost use Rattle.std.specs.Prelude.{◌≡◌, ◌∷◌, [], codes, IfOk};

use dali_base::{OutOfMemory, Text, Words};
use dali_desk::{Status, run};
use dali_outside::{Fault, Faults, MemSite, MemSource, Site, Source};
use std::alloc::Global;

/// The room for printed bytes, for calls of the site, and for bytes that writes replace.
const ROOM: u32 = 1_048_576;

/// The three commands that open two accounts and issue cash.
pub(crate) const THREE_LINES: &[u8] = b"080000,PART,A\n080000,PART,B\n080001,ISSUE,A,MXN,100\n";

/// The journal of the three commands, up to its closed gate.
pub(crate) const IMAGE: &[u8] = b"DALI-JOURNAL\0\0\0\x01\
\x01\0\0\0\x11\x01\0\x0d080000,PART,A\0\
\x01\0\0\0\x11\x01\0\x0d080000,PART,B\0\
\x01\0\0\0\x1a\x01\0\x16080001,ISSUE,A,MXN,100\0\0";

/// The header of a journal of edition 1.
pub(crate) const HEADER: &[u8] = b"DALI-JOURNAL\0\0\0\x01";

/// A text of these bytes.
pub(crate) fn text(alloc: Global, bytes: &[u8]) -> Result<Text, OutOfMemory>
    ensures { IfOk result (λ text. text ≡ bytes.now) }
{
    let mut text = Text::new(alloc);
    text.add(bytes)?;
    Ok(text)
}

/// The bytes of a device of this size: these, and 0 behind them.
pub(crate) fn device(alloc: Global, front: &[u8], size: usize) -> Result<Text, OutOfMemory> {
    let mut image = text(alloc, front)?;
    for _ in front.len()..size {
        image.push(0)?;
    }
    Ok(image)
}

/// The words `day J`.
fn day_words(alloc: Global) -> Result<Words, OutOfMemory>
    ensures { IfOk result (λ words. words ≡ codes "day" ∷ codes "J" ∷ []) }
{
    let mut words = Words::new(alloc);
    words.push(text(alloc, b"day")?)?;
    words.push(text(alloc, b"J")?)?;
    Ok(words)
}

/// No failures, or one.
fn faults(alloc: Global, fault: Option<Fault>) -> Result<Faults, OutOfMemory> {
    let mut faults = Faults::new(alloc);
    if let Some(fault) = fault {
        faults.push(fault)?;
    }
    Ok(faults)
}

/// A site with this image, of which this call fails.
pub(crate) fn site_of(
    alloc: Global,
    image: Text,
    fault: Option<Fault>,
) -> Result<MemSite, OutOfMemory> {
    MemSite::from_image(alloc, image, ROOM, ROOM, ROOM, faults(alloc, fault)?)
}

/// A source of these bytes, so many at each take, of which this take fails.
pub(crate) fn source_of(
    alloc: Global,
    file: &[u8],
    piece: u32,
    take: Option<Fault>,
) -> Result<MemSource, OutOfMemory> {
    let piece = piece.max(1);
    Ok(MemSource::new(text(alloc, file)?, piece, faults(alloc, take)?))
}

/// How `day J` over this source and this site ends.
pub(crate) fn day<S: Source, T: Site>(
    alloc: Global,
    source: &mut S,
    site: &mut T,
) -> Result<Status, OutOfMemory> {
    let words = day_words(alloc)?;
    Ok(run(alloc, &words, source, site))
}

/// How `day J` over this site ends, where this file is its input, whole at each take.
pub(crate) fn day_of<T: Site>(
    alloc: Global,
    file: &[u8],
    site: &mut T,
) -> Result<Status, OutOfMemory> {
    let mut source = source_of(alloc, file, 65_536, None)?;
    day(alloc, &mut source, site)
}

/// How `day J` over this source and an empty journal of this size ends, and what it prints.
pub(crate) fn new_day<S: Source>(
    alloc: Global,
    source: &mut S,
    size: usize,
) -> Result<(Status, Text), OutOfMemory> {
    let mut site = site_of(alloc, device(alloc, HEADER, size)?, None)?;
    let status = day(alloc, source, &mut site)?;
    Ok((status, text(alloc, site.printed())?))
}

ghost use Rattle.std.specs.Prelude.{◌≡◌, ◌+◌, ◌<◌, ◌++◌, ℕ, List, [], Some, length, slice_get, IfOk, OnOk};
ghost use Rattle.std.specs.List.{All};
ghost use Rattle.dali_entry.specs.EntryRecord.{EntryRecord};
ghost use Rattle.dali_outside.specs.Outside.{Sight};
ghost use Rattle.dali_record.specs.IsRecord.{IsWithin};
ghost use Rattle.dali_record.specs.RecordText.{record_text};
ghost use Rattle.dali_replica.specs.Frame.{frame_text};
ghost use Rattle.dali_ship.specs.Printing.{SoFar, PrintsOn};
ghost use Rattle.dali_replica.specs.Shipping.{shipped};

use dali_base::{OutOfMemory, Text};
use dali_entry::Entry;
use dali_outside::{Failed, Site};
use dali_replica::ship_frame;
use std::alloc::Global;

/// The least bytes of a piece, but of the last one and of one before a frame of so many bytes.
const LEAST_PIECE: usize = 65_536;

/// Why no more frames are printed.
#[derive(Clone, Copy, Debug)]
pub(crate) enum PrintNo {
    /// The site failed to print.
    PrintFault,
    /// Memory was wanted and wasn't there.
    OutOfMemory,
}

/// Prints the frames of these entries in order, numbered from 1. Short ones are gathered into a piece.
pub(crate) fn print_frames<T: Site>(
    alloc: Global,
    entries: &[Entry],
    site: &mut T,
) -> Result<(), PrintNo>
    requires { All IsWithin entries.now }
    ensures { PrintsOn result T.tells (shipped entries.now) [] [] (T.sight site.old) (T.sight site.new) }
{
    // A piece never grows past its room: it is printed as soon as it is long enough, and a frame that is added is shorter.
    let Ok(mut piece) = Vec::with_capacity(alloc, 2 * LEAST_PIECE) else {
        return Err(PrintNo::OutOfMemory);
    };
    for at in 0..entries.len() {
        let Ok(frame) = frame_at(alloc, entries, at) else {
            return Err(PrintNo::OutOfMemory);
        };
        print_frame(frame.bytes(), &mut piece, site)?;
    }
    print_piece(&mut piece, site)
}

/// The frame of the entry at this place, which is the command of the next number.
fn frame_at(alloc: Global, entries: &[Entry], at: usize) -> Result<Text, OutOfMemory>
    requires within { All IsWithin entries.now }
    requires range { at < length entries.now }
    ensures { (e : EntryRecord) → slice_get entries.now at ≡ Some e → IfOk result (λ text. text ≡ frame_text (at + 1) (record_text e)) }
{
    ship_frame(alloc, at as u64 + 1, &entries[at])
}

/// Adds a frame to the piece, or prints it behind the piece where it is long.
fn print_frame<T: Site>(frame: &[u8], piece: &mut Vec<u8>, site: &mut T) -> Result<(), PrintNo>
    ensures { (text rest : List ℕ) (old : Sight) → SoFar T.tells text piece.old.items (frame.now ++ rest) old (T.sight site.old) →
        PrintsOn result T.tells text piece.new.items rest old (T.sight site.new) }
{
    if frame.len() < LEAST_PIECE {
        return gather(frame, piece, site);
    }
    print_piece(piece, site)?;
    print(frame, site)
}

/// Adds a frame to the piece, and prints the piece where it is long enough.
fn gather<T: Site>(frame: &[u8], piece: &mut Vec<u8>, site: &mut T) -> Result<(), PrintNo>
    ensures { (text rest : List ℕ) (old : Sight) → SoFar T.tells text piece.old.items (frame.now ++ rest) old (T.sight site.old) →
        PrintsOn result T.tells text piece.new.items rest old (T.sight site.new) }
{
    let Ok(()) = piece.extend_from_slice(frame) else {
        return Err(PrintNo::OutOfMemory);
    };
    if piece.len() < LEAST_PIECE {
        return Ok(());
    }
    print_piece(piece, site)
}

/// Prints the piece, where it isn't empty, and leaves it empty.
fn print_piece<T: Site>(piece: &mut Vec<u8>, site: &mut T) -> Result<(), PrintNo>
    ensures on { (text rest : List ℕ) (old : Sight) → SoFar T.tells text piece.old.items rest old (T.sight site.old) →
        PrintsOn result T.tells text [] rest old (T.sight site.new) }
    ensures empty { OnOk result (piece.new.items ≡ []) }
{
    if piece.is_empty() {
        return Ok(());
    }
    print(piece, site)?;
    piece.clear();
    Ok(())
}

/// Prints these bytes in one put.
fn print<T: Site>(bytes: &[u8], site: &mut T) -> Result<(), PrintNo>
    ensures { (text rest : List ℕ) (old : Sight) → SoFar T.tells text bytes.now rest old (T.sight site.old) →
        PrintsOn result T.tells text [] rest old (T.sight site.new) }
{
    match site.put(bytes) {
        Ok(()) => Ok(()),
        Err(Failed) => Err(PrintNo::PrintFault),
    }
}

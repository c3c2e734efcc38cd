use dali_base::{OutOfMemory, Text, Words};
use std::alloc::Global;
use std::env::FillError;
use std::rt::Env;

/// The longest word that is read in the first place; a longer one is read into twice as much.
const LEN: usize = 256;

/// The words of the command line behind the program's name. The error is want of memory, or a word that grows while it is
/// read.
pub(crate) fn read(rt: &impl Env, alloc: Global) -> Result<Words, OutOfMemory> {
    let mut words = Words::new(alloc);
    for place in 1..usize::MAX {
        match word(rt, alloc, place)? {
            Some(word) => words.push(word)?,
            None => break,
        }
    }
    Ok(words)
}

/// The word at this place, where there is one.
fn word(rt: &impl Env, alloc: Global, place: usize) -> Result<Option<Text>, OutOfMemory> {
    let mut len = LEN;
    for _ in 0..usize::BITS {
        let mut buffer = vec![in alloc; 0u8; len]?;
        match rt.arg(place, &mut buffer) {
            Ok(read) => {
                buffer.truncate(read);
                return Ok(Some(Text::from_vec(buffer)));
            }
            Err(FillError::NotPresent) => return Ok(None),
            Err(FillError::TooLong) => len = len.saturating_mul(2),
        }
    }
    Err(OutOfMemory)
}

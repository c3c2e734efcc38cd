ghost use Rattle.std.specs.Prelude.{◌≡◌, ◌≢◌, ◌↔◌, ◌≤◌, ℕ, [], decimal, IsTrue, IfOk, OnErr};
ghost use Rattle.std.specs.Str.{IsUtf8};
ghost use Rattle.dali_journal.specs.Limits.{least_size};
ghost use Rattle.dali_desk.specs.Limits.{most_size};
ghost use Rattle.dali_gen.specs.Limits.{most_number};
ghost use Rattle.dali_desk.specs.Words.{IsJob, IsJournalWord};

use crate::limits::MOST_SIZE;
use dali_base::{Text, Words, read_number};
use dali_gen::limits::MOST_NUMBER;
use dali_journal::limits::LEAST_SIZE;

/// What the words of the command line ask for.
#[derive(Clone, Copy, Debug, PartialEq, Eq)]
pub enum Job {
    /// `init JOURNAL SIZE`: makes an empty journal of so many bytes, 64 to 2^40.
    Init { size: u64 },
    /// `day JOURNAL`: takes the commands of the day file.
    Day,
    /// `check`: judges a certificate block.
    Check,
    /// `export JOURNAL`: prints the table of all postings.
    Export,
    /// `gen N`: prints the generated day file of N, 1 to 64.
    Gen { n: u32 },
    /// `trial N`: prints the summary of a trial of the generated day of N, 1 to 64.
    Trial { n: u32 },
    /// `raise JOURNAL`: raises the journal by one edition.
    Raise,
    /// `gate JOURNAL`: takes the commands of several inboxes, as a list of turns merges them.
    Gate,
    /// `ship JOURNAL`: prints the frames of the journal's commands.
    Ship,
    /// `follow JOURNAL`: takes the frames of a stream into the journal.
    Follow,
}

/// The words are none of the table.
#[derive(Clone, Copy, Debug, PartialEq, Eq)]
pub struct Usage;

/// What the words ask for. `Usage` exactly where they are none of the table, which is defined in `specs/Words.antt`.
/// Takes no memory.
pub fn plan(words: &Words) -> Result<Job, Usage>
    ensures ok { IfOk result (λ job. IsJob words.now job) }
    ensures usage { OnErr result ((job : _) → IsJob words.now job → ⊥) }
{
    match words.as_slice() {
        [word] if is_word(word, b"check") => Ok(Job::Check),
        [word, n] if is_word(word, b"gen") => generated(n),
        [word, n] if is_word(word, b"trial") => tried(n),
        [word, path] if is_path(path) => over_journal(word),
        [word, path, size] if is_word(word, b"init") && is_path(path) => init(size),
        _ => Err(Usage),
    }
}

/// The job of a word that is followed by a journal alone.
fn over_journal(word: &Text) -> Result<Job, Usage>
    ensures ok { IfOk result (λ job. IsJournalWord word.now job) }
    ensures usage { OnErr result ((job : _) → IsJournalWord word.now job → ⊥) }
{
    if is_word(word, b"day") {
        return Ok(Job::Day);
    }
    if is_word(word, b"export") {
        return Ok(Job::Export);
    }
    if is_word(word, b"raise") {
        return Ok(Job::Raise);
    }
    if is_word(word, b"gate") {
        return Ok(Job::Gate);
    }
    if is_word(word, b"ship") {
        return Ok(Job::Ship);
    }
    if is_word(word, b"follow") {
        return Ok(Job::Follow);
    }
    Err(Usage)
}

/// The job of `gen` with this number.
fn generated(n: &Text) -> Result<Job, Usage>
    ensures ok { IfOk result (λ job. (k : ℕ) × (job ≡ Job.Gen k) × (1 ≤ k) × (k ≤ most_number) × (n.now ≡ decimal k)) }
    ensures usage { OnErr result ((k : ℕ) → 1 ≤ k → k ≤ most_number → n.now ≡ decimal k → ⊥) }
{
    let n = day_number(n)?;
    Ok(Job::Gen { n })
}

/// The job of `trial` with this number.
fn tried(n: &Text) -> Result<Job, Usage>
    ensures ok { IfOk result (λ job. (k : ℕ) × (job ≡ Job.Trial k) × (1 ≤ k) × (k ≤ most_number) × (n.now ≡ decimal k)) }
    ensures usage { OnErr result ((k : ℕ) → 1 ≤ k → k ≤ most_number → n.now ≡ decimal k → ⊥) }
{
    let n = day_number(n)?;
    Ok(Job::Trial { n })
}

/// The number of a generated day.
fn day_number(n: &Text) -> Result<u32, Usage>
    ensures ok { IfOk result (λ k. (1 ≤ k) × (k ≤ most_number) × (n.now ≡ decimal k)) }
    ensures usage { OnErr result ((k : ℕ) → 1 ≤ k → k ≤ most_number → n.now ≡ decimal k → ⊥) }
{
    let Some(n) = read_number(n.bytes(), MOST_NUMBER as u64) else {
        return Err(Usage);
    };
    if n == 0 {
        return Err(Usage);
    }
    Ok(n as u32)
}

/// The job of `init` with this size.
fn init(size: &Text) -> Result<Job, Usage>
    ensures ok { IfOk result (λ job. (n : ℕ) × (job ≡ Job.Init n) × (least_size ≤ n) × (n ≤ most_size) × (size.now ≡ decimal n)) }
    ensures usage { OnErr result ((n : ℕ) → least_size ≤ n → n ≤ most_size → size.now ≡ decimal n → ⊥) }
{
    let Some(size) = read_number(size.bytes(), MOST_SIZE) else {
        return Err(Usage);
    };
    if size < LEAST_SIZE {
        return Err(Usage);
    }
    Ok(Job::Init { size })
}

fn is_word(word: &Text, text: &[u8]) -> bool
    ensures { IsTrue result ↔ (word.now ≡ text.now) }
{
    word.bytes() == text
}

/// Whether the word can name a journal: any text that isn't empty.
fn is_path(word: &Text) -> bool
    ensures { IsTrue result ↔ ((word.now ≢ []) × IsUtf8 word.now) }
{
    !word.is_empty() && std::str::from_utf8(word.bytes()).is_ok()
}

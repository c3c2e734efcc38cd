//! The program `dali`: the words of the command line, the journal's file and the machine's streams, handed to
//! `dali_desk::run`.
//!
//! The source and the site are written over three traits (`ports.rt`) whose calls can be told, so their contracts say
//! that each makes exactly the call that it names and answers as that answered. Trusted are `machine.rt`, where the
//! machine's own streams and file stand behind these traits, `opening.rt`, and that `main` hands over the words and ends
//! with the number.
#![tactic(auto)]

ghost use Rattle.std.specs.Prelude.{◌≡◌, ℕ};
ghost use Rattle.dali_desk.specs.Words.{IsJob};

mod ending;
mod file_site;
mod machine;
mod opening;
mod ports;
mod stdin_source;
mod streams;
#[cfg(test)]
mod tests;
mod words;

use dali_base::Words;
use dali_desk::{Job, Status, plan, run};
use ending::end;
use file_site::FileSite;
use opening::{create_file, open_file, open_to_read};
use std::fs::File;
use std::io::Stdout;
use std::process::ExitCode;
use stdin_source::StdinSource;

/// Runs what the words ask for, prints the status line on standard error, and ends with the status's number.
fn main(rt: HostRuntime) -> ExitCode {
    let status = match words::read(&rt, rt.alloc()) {
        Ok(words) => {
            let mut source = StdinSource::new(rt.stdin());
            let mut site = site_of(&rt, &words);
            run(rt.alloc(), &words, &mut source, &mut site)
        }
        Err(_) => Status::OutOfMemory,
    };
    end(&status, &mut rt.stderr())
}

/// The site of these words: the file that the second one names, and standard output. Only `init` makes a file. `check`,
/// `gen` and `trial` use none, `export` and `ship` read it alone, and where the file can't be had, the site has none.
fn site_of(rt: &HostRuntime, words: &Words) -> FileSite<File, Stdout>
    ensures { (size : ℕ) → IsJob words.now (Job.Init size) → result.size ≡ size }
{
    let path = match words.get(1) {
        Some(word) => std::str::from_utf8(word.bytes()).unwrap_or(""),
        None => "",
    };
    let stdout = rt.stdout();
    match plan(words) {
        Ok(Job::Init { size }) => FileSite::new(create_file(rt, path, size), size, stdout),
        Ok(Job::Day | Job::Raise | Job::Gate | Job::Follow) => {
            site_over(open_file(rt, path), stdout)
        }
        Ok(Job::Export | Job::Ship) => site_over(open_to_read(rt, path), stdout),
        Ok(Job::Check | Job::Gen { .. } | Job::Trial { .. }) => FileSite::new(None, 0, stdout),
        Err(_) => FileSite::new(None, 0, stdout),
    }
}

/// The site over a file of so many bytes, or over none.
fn site_over(opened: Option<(File, u64)>, stdout: Stdout) -> FileSite<File, Stdout> {
    match opened {
        Some((file, size)) => FileSite::new(Some(file), size, stdout),
        None => FileSite::new(None, 0, stdout),
    }
}

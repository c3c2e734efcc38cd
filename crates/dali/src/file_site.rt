ghost use Rattle.std.specs.Prelude.{◌≡◌, ◌+◌, ◌≤◌, false, [], length, is_ok, IsErr, OnErr, None};
ghost use Rattle.dali_outside.specs.Outside.{Rose};
ghost use Rattle.dali.specs.Calls.{Asks, Makes, read_at, write_at, sync as sync_call, print, count_after};

use crate::ports::{Device, Output};
use dali_outside::{Failed, Site};

/// A journal's file and standard output as a site. It tells nothing of their content, and counts its failures. Where
/// there is no file, every call of the disk fails.
#[derive(Drop)]
pub struct FileSite<D, O> {
    file: Option<D>,
    size: u64,
    output: O,
    disk_faults: u64,
    print_faults: u64,
}

impl<D, O> FileSite<D, O> {
    /// Over this file of so many bytes, where there is one, and this output, with no failure counted.
    pub fn new(file: Option<D>, size: u64, output: O) -> FileSite<D, O>
        ensures file { result.file ≡ file }
        ensures size { result.size ≡ size }
        ensures output { result.output ≡ output }
        ensures none { (result.disk_faults ≡ 0) × (result.print_faults ≡ 0) }
    {
        FileSite {
            file,
            size,
            output,
            disk_faults: 0,
            print_faults: 0,
        }
    }
}

impl<D: Device + Drop, O: Output + Drop> Site for FileSite<D, O> {
    ghost tells = { false };

    ghost sight = { λ s. record {
      size = s.size;
      bytes = [];
      loose = [];
      printed = [];
      past = [];
      disk_faults = s.disk_faults;
      print_faults = s.print_faults;
      syncs = 0;
    } };

    fn size(&self) -> u64 {
        self.size
    }

    /// Makes one read of the file, and fails exactly where it fails.
    fn read(&mut self, at: u64, into: &mut [u8]) -> Result<(), Failed>
        ensures call { Asks D.calls self.old.file self.new.file (read_at at into.new (is_ok result)) }
        ensures absent { self.old.file ≡ None → IsErr result }
        ensures goes { (self.old.disk_faults ≤ self.new.disk_faults) × (self.old.print_faults ≤ self.new.print_faults) }
        ensures counted { self.new.disk_faults ≡ count_after (is_ok result) self.old.disk_faults }
        ensures rest { (self.new.size ≡ self.old.size) × (self.new.output ≡ self.old.output) × (self.new.print_faults ≡ self.old.print_faults) }
    {
        let answer = match &mut self.file {
            Some(file) => file.read(at, into),
            None => Err(Failed),
        };
        if answer.is_err() {
            self.disk_faults = self.disk_faults.saturating_add(1);
        }
        answer
    }

    /// Makes one write to the file, and fails exactly where it fails.
    fn write(&mut self, at: u64, piece: &[u8]) -> Result<(), Failed>
        ensures call { Asks D.calls self.old.file self.new.file (write_at at piece.now (is_ok result)) }
        ensures absent { self.old.file ≡ None → IsErr result }
        ensures goes { (self.old.disk_faults ≤ self.new.disk_faults) × (self.old.print_faults ≤ self.new.print_faults) }
        ensures counted { self.new.disk_faults ≡ count_after (is_ok result) self.old.disk_faults }
        ensures rest { (self.new.size ≡ self.old.size) × (self.new.output ≡ self.old.output) × (self.new.print_faults ≡ self.old.print_faults) }
    {
        let answer = match &mut self.file {
            Some(file) => file.write(at, piece),
            None => Err(Failed),
        };
        if answer.is_err() {
            self.disk_faults = self.disk_faults.saturating_add(1);
        }
        answer
    }

    /// Makes one sync of the file, and fails exactly where it fails.
    fn sync(&mut self) -> Result<(), Failed>
        ensures call { Asks D.calls self.old.file self.new.file (sync_call (is_ok result)) }
        ensures absent { self.old.file ≡ None → IsErr result }
        ensures goes { (self.old.disk_faults ≤ self.new.disk_faults) × (self.old.print_faults ≤ self.new.print_faults) }
        ensures counted { self.new.disk_faults ≡ count_after (is_ok result) self.old.disk_faults }
        ensures rest { (self.new.size ≡ self.old.size) × (self.new.output ≡ self.old.output) × (self.new.print_faults ≡ self.old.print_faults) }
    {
        let answer = match &mut self.file {
            Some(file) => file.sync(),
            None => Err(Failed),
        };
        if answer.is_err() {
            self.disk_faults = self.disk_faults.saturating_add(1);
        }
        answer
    }

    /// Prints the piece by one call of the output, and fails exactly where it fails.
    fn put(&mut self, piece: &[u8]) -> Result<(), Failed>
        ensures call { Makes (O.calls self.old.output) (O.calls self.new.output) (print piece.now (is_ok result)) }
        ensures goes { (self.old.disk_faults ≤ self.new.disk_faults) × (self.old.print_faults ≤ self.new.print_faults) }
        ensures counted { self.new.print_faults ≡ count_after (is_ok result) self.old.print_faults }
        ensures rest { (self.new.size ≡ self.old.size) × (self.new.file ≡ self.old.file) × (self.new.disk_faults ≡ self.old.disk_faults) }
    {
        let answer = self.output.print(piece);
        if answer.is_err() {
            self.print_faults = self.print_faults.saturating_add(1);
        }
        answer
    }
}

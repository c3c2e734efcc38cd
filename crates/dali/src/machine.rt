//! The machine's own streams and file as ports. They tell nothing, so each of these calls is trusted to be what it is
//! named.

ghost use Rattle.std.specs.Prelude.{None};

use crate::ports::{Device, Input, Output};
use crate::streams::{print_all, read_some};
use dali_outside::Failed;
use std::fs::File;
use std::io::{Stderr, Stdin, Stdout};
use std::os::unix::fs::FileExt;

impl Input for Stdin {
    ghost calls = { λ _. None };

    fn read(&mut self, into: &mut [u8]) -> Result<usize, Failed> {
        read_some(self, into)
    }
}

impl Output for Stdout {
    ghost calls = { λ _. None };

    fn print(&mut self, piece: &[u8]) -> Result<(), Failed> {
        print_all(self, piece)
    }
}

impl Output for Stderr {
    ghost calls = { λ _. None };

    fn print(&mut self, piece: &[u8]) -> Result<(), Failed> {
        print_all(self, piece)
    }
}

impl Device for File {
    ghost calls = { λ _. None };

    fn read(&mut self, at: u64, into: &mut [u8]) -> Result<(), Failed> {
        self.read_exact_at(into, at).map_err(|_| Failed)
    }

    fn write(&mut self, at: u64, piece: &[u8]) -> Result<(), Failed> {
        self.write_all_at(piece, at).map_err(|_| Failed)
    }

    fn sync(&mut self) -> Result<(), Failed> {
        self.sync_data().map_err(|_| Failed)
    }
}

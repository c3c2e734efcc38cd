use crate::file_site::FileSite;
use crate::opening::{create_file, open_file, open_to_read};
use crate::streams::{print_all, read_some};
use dali_outside::{Failed, Site};
use std::io::{Error, ErrorKind, Read, Result, Write};
use std::test::Fail;

/// A file in the folder in which the tests run.
const PATH: &str = "file_site.journal";

#[test]
fn a_file_keeps_what_is_written(rt: HostRuntime) -> std::result::Result<(), Fail> {
    let _ = std::fs::remove_file(&rt, PATH);
    let mut site = FileSite::new(create_file(&rt, PATH, 64), 64, rt.stdout());
    assert!(rt; site.write(16, b"abc").is_ok());
    assert!(rt; site.sync().is_ok());
    let mut into = [0; 4];
    assert!(rt; site.read(15, &mut into).is_ok());
    assert_eq!(rt; &into, b"\0abc");

    // The path is there already, and its file is held until the site is let go.
    assert!(rt; create_file(&rt, PATH, 64).is_none());
    assert!(rt; open_file(&rt, PATH).is_none());
    drop(site);

    let (file, size) = open_file(&rt, PATH).ok_or("no file")?;
    assert_eq!(rt; size, 64);
    let mut opened = FileSite::new(Some(file), 64, rt.stdout());
    assert!(rt; opened.read(15, &mut into).is_ok());
    assert_eq!(rt; &into, b"\0abc");
    drop(opened);

    let (file, _) = open_to_read(&rt, PATH).ok_or("no file")?;
    let mut shown = FileSite::new(Some(file), 64, rt.stdout());
    assert!(rt; shown.read(15, &mut into).is_ok());
    assert!(rt; shown.write(15, b"d").is_err());
    let _ = std::fs::remove_file(&rt, PATH);
    Ok(())
}

/// A stream whose first call a signal cuts off, whose second moves one byte, and whose later ones fail.
#[derive(Drop)]
struct OneByte {
    calls: u8,
}

impl OneByte {
    fn answer(&mut self, len: usize) -> Result<usize> {
        self.calls = self.calls.saturating_add(1);
        match self.calls {
            1 => Err(Error::from(ErrorKind::Interrupted)),
            2 => Ok(len.min(1)),
            _ => Err(Error::from(ErrorKind::BrokenPipe)),
        }
    }
}

impl Read for OneByte {
    fn read(&mut self, into: &mut [u8]) -> Result<usize> {
        match self.answer(into.len()) {
            Ok(n) if n <= into.len() => {
                into[..n].fill(b'a');
                Ok(n)
            }
            Ok(_) => Ok(0),
            Err(error) => Err(error),
        }
    }
}

impl Write for OneByte {
    fn write(&mut self, piece: &[u8]) -> Result<usize> {
        match self.answer(piece.len()) {
            Ok(n) if n <= piece.len() => Ok(n),
            Ok(_) => Ok(0),
            Err(error) => Err(error),
        }
    }

    fn flush(&mut self) -> Result<()> {
        Ok(())
    }
}

#[test]
fn a_read_goes_on_after_a_signal_and_fails_where_the_reader_does(rt: HostRuntime) {
    let mut reader = OneByte { calls: 0 };
    let mut into = [0; 3];
    assert_eq!(rt; read_some(&mut reader, &mut into), Ok(1));
    assert_eq!(rt; &into, b"a\0\0");
    assert_eq!(rt; read_some(&mut reader, &mut into), Err(Failed));
    assert_eq!(rt; reader.calls, 3);
}

#[test]
fn a_print_is_whole_or_fails(rt: HostRuntime) {
    let mut writer = OneByte { calls: 0 };
    assert_eq!(rt; print_all(&mut writer, b"a"), Ok(()));
    let mut writer = OneByte { calls: 0 };
    assert_eq!(rt; print_all(&mut writer, b"ab"), Err(Failed));
    assert_eq!(rt; writer.calls, 3);
}

use std::fs::{File, Files, OpenOptions, metadata};
use std::io::ErrorKind;
use std::os::fd::AsRawFd;
use std::os::unix::fs::MetadataExt;

/// The standard streams as the machine names them: input, output and errors.
const STREAMS: [&str; 3] = ["/proc/self/fd/0", "/proc/self/fd/1", "/proc/self/fd/2"];

/// The folder of these names.
const STREAMS_FOLDER: &str = "/proc/self/fd";

/// The file of this path, locked by this program alone, and its size in bytes. `None` where it can't be opened for reading
/// and writing, where another program has locked it, or where it is one of the standard streams.
pub(crate) fn open_file(files: &impl Files<File = File>, path: &str) -> Option<(File, u64)> {
    let mut how = OpenOptions::new();
    how.read(true).write(true);
    sized(files, how.open(files, path).ok()?)
}

/// The same for reading alone, so that a journal that may not be written will do.
pub(crate) fn open_to_read(files: &impl Files<File = File>, path: &str) -> Option<(File, u64)> {
    sized(files, File::open(files, path).ok()?)
}

/// The file, locked by this program alone, and its size in bytes.
fn sized(files: &impl Files<File = File>, file: File) -> Option<(File, u64)> {
    let file = locked(files, file)?;
    let size = file.metadata().ok()?.len();
    Some((file, size))
}

/// A new file of this path with so many bytes, locked by this program alone. Its name and its size outlast a stop. `None`
/// where the path is there already, or where any of this fails; an empty file may then be left.
pub(crate) fn create_file(files: &impl Files<File = File>, path: &str, size: u64) -> Option<File> {
    let mut how = OpenOptions::new();
    how.read(true).write(true).create_new(true);
    let file = locked(files, how.open(files, path).ok()?)?;
    file.set_len(size).ok()?;
    file.sync_all().ok()?;
    let folder = File::open(files, folder_of(path)).ok()?;
    folder.sync_all().ok()?;
    Some(file)
}

/// The folder in which this path's file is.
fn folder_of(path: &str) -> &str {
    match path.rsplit_once('/') {
        None => ".",
        Some(("", _)) => "/",
        Some((folder, _)) => folder,
    }
}

/// The file, locked until it is closed, where it is no standard stream and nobody else has locked it.
fn locked(files: &impl Files<File = File>, file: File) -> Option<File> {
    if !is_apart(files, &file) {
        return None;
    }
    file.try_lock().ok()?;
    Some(file)
}

/// Whether the file is none of the standard streams. Where a stream was closed before the start, a file that is opened
/// gets its number, and what is printed would go into the journal; where a stream was led into the journal (`1<> J`,
/// `>> J`), it is the same file under another number.
fn is_apart(files: &impl Files<File = File>, file: &File) -> bool {
    let Ok(own) = file.metadata() else {
        return false;
    };
    for stream in STREAMS {
        match metadata(files, stream) {
            Ok(other) if other.dev() == own.dev() && other.ino() == own.ino() => return false,
            Ok(_) => {}
            // A stream that is closed has no name.
            Err(error) if error.kind() == ErrorKind::NotFound => {}
            Err(_) => return false,
        }
    }
    // Without this folder no stream has a name, so nothing could be told.
    file.as_raw_fd() > 2 && metadata(files, STREAMS_FOLDER).is_ok()
}

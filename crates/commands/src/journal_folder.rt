//! The folder of a journal: its lock, and its files `journal.1`, `journal.2` and so on, of which the greatest number is the newest. What is
//! made here its user alone may read.

use service::FILE_MODE;
use sip_text::{NoMemory, Text, plain_number};
use std::alloc::Global;
use std::fs;
use std::fs::{DirBuilder, File, TryLockError};
use std::os::unix::fs::{DirBuilderExt, OpenOptionsExt};
use std::rt::Files;

/// The permission bits of a folder that is made: its user alone may look into it.
const FOLDER_MODE: u32 = 0o700;

/// A folder that no other service writes as long as this is kept.
#[derive(Drop)]
pub(crate) struct Folder {
    pub(crate) path: Text,
    /// Held for its lock.
    lock: File,
}

/// Whether a folder can be had.
#[derive(Drop)]
pub(crate) enum Access {
    Ours(Folder),
    /// Another service writes it.
    Theirs,
    /// It can't be written.
    Refused,
}

/// Which file it is by its name, if it is one of a journal.
fn file_number(name: &str) -> Option<u64> {
    plain_number(name.strip_prefix("journal.")?.as_bytes())
}

/// One number more, in its place from the least to the greatest.
fn add_number(numbers: &mut Vec<u64>, name: &str) -> Result<(), NoMemory> {
    if let Some(number) = file_number(name) {
        numbers.push(number)?;
    }
    Ok(())
}

/// Whether something stands there that is no regular file. Nobody opens it: at a FIFO that may wait for ever.
fn is_irregular<R: Files<File = File>>(rt: &R, path: &str) -> bool {
    match fs::metadata(rt, path) {
        Ok(metadata) => !metadata.is_file(),
        Err(_) => false,
    }
}

/// Has the folder for this service alone, and makes it where it isn't there.
pub(crate) fn take_folder<R>(rt: &R, path: &Text) -> Result<Access, NoMemory>
where
    R: Files<File = File> + AllocGlobal,
{
    let alloc = rt.alloc();
    let place = path.as_str();
    let name = format!(in alloc; "{place}/lock")?;
    let _ = DirBuilder::new()
        .recursive(true)
        .mode(FOLDER_MODE)
        .create(rt, place);
    if is_irregular(rt, name.as_str()) {
        return Ok(Access::Refused);
    }
    let Ok(lock) = File::options()
        .create(true)
        .append(true)
        .mode(FILE_MODE)
        .open(rt, name.as_str())
    else {
        return Ok(Access::Refused);
    };
    match lock.try_lock() {
        Ok(()) => {
            let path = path.copy(alloc)?;
            Ok(Access::Ours(Folder { path, lock }))
        }
        Err(TryLockError::WouldBlock) => Ok(Access::Theirs),
        Err(TryLockError::Error(_)) => Ok(Access::Refused),
    }
}

impl Folder {
    /// The path of its file with this number.
    fn file_path(&self, alloc: Global, number: u64) -> Result<String, NoMemory> {
        let path = self.path.as_str();
        Ok(format!(in alloc; "{path}/journal.{number}")?)
    }

    /// The numbers of its files, the greatest first. Where it can't be listed there is none.
    pub(crate) fn numbers<R>(&self, rt: &R) -> Result<Vec<u64>, NoMemory>
    where
        R: Files<File = File> + AllocGlobal + Clone + Drop,
    {
        let mut numbers = Vec::new(rt.alloc());
        let Ok(entries) = fs::read_dir(rt, self.path.as_str()) else {
            return Ok(numbers);
        };
        for entry in entries {
            let Ok(entry) = entry else {
                break;
            };
            add_number(&mut numbers, entry.file_name())?;
        }
        numbers.sort()?;
        numbers.reverse();
        Ok(numbers)
    }

    /// What stands in its file with this number. None, where it can't be read or is no regular file.
    pub(crate) fn bytes<R>(&self, rt: &R, number: u64) -> Result<Option<Vec<u8>>, NoMemory>
    where
        R: Files<File = File> + AllocGlobal,
    {
        let path = self.file_path(rt.alloc(), number)?;
        if is_irregular(rt, path.as_str()) {
            return Ok(None);
        }
        match fs::read(rt, path.as_str()) {
            Ok(bytes) => Ok(Some(bytes)),
            Err(_) => Ok(None),
        }
    }

    /// Its file with this number, to be written behind so many bytes: what stands behind them is cut off. It is made where it isn't there. None,
    /// where it can't be written or is no regular file.
    pub(crate) fn file<R>(&self, rt: &R, number: u64, length: u64) -> Result<Option<File>, NoMemory>
    where
        R: Files<File = File> + AllocGlobal,
    {
        let path = self.file_path(rt.alloc(), number)?;
        if is_irregular(rt, path.as_str()) {
            return Ok(None);
        }
        let Ok(file) = File::options()
            .create(true)
            .append(true)
            .mode(FILE_MODE)
            .open(rt, path.as_str())
        else {
            return Ok(None);
        };
        match file.set_len(length) {
            Ok(()) => Ok(Some(file)),
            Err(_) => Ok(None),
        }
    }

    /// Removes its files with these numbers.
    pub(crate) fn remove<R>(&self, rt: &R, numbers: &[u64]) -> Result<(), NoMemory>
    where
        R: Files<File = File> + AllocGlobal,
    {
        for number in numbers {
            let path = self.file_path(rt.alloc(), *number)?;
            let _ = fs::remove_file(rt, path.as_str());
        }
        Ok(())
    }

    /// Gives its files with these numbers names that no journal has: who runs it may look at them.
    pub(crate) fn put_aside<R>(&self, rt: &R, numbers: &[u64]) -> Result<(), NoMemory>
    where
        R: Files<File = File> + AllocGlobal,
    {
        let alloc = rt.alloc();
        for number in numbers {
            let path = self.file_path(alloc, *number)?;
            let from = path.as_str();
            let to = format!(in alloc; "{from}.old")?;
            let _ = fs::rename(rt, from, to.as_str());
        }
        Ok(())
    }
}

/// Which start of the machine this is. Nothing, where the system doesn't tell.
pub(crate) fn boot_text<R>(rt: &R) -> Result<Text, NoMemory>
where
    R: Files<File = File> + AllocGlobal,
{
    match fs::read_to_string(rt, "/proc/sys/kernel/random/boot_id") {
        Ok(text) => Text::of(rt.alloc(), text.trim()),
        Err(_) => Text::of(rt.alloc(), ""),
    }
}

//! A disk over a file of the system. What it keeps is not told: it is the trusted edge.

ghost use Rattle.std.specs.Prelude.{◌≡◌, ◌*◌, ◌-◌, ◌^◌, ◌<◌, ◌≤◌, length, Option, None, OnOk, OnErr, IsErrOf, IfOk, string_bytes, IsSome};
ghost use Rattle.dds_base.specs.Outside.{Rose, one_more};
ghost use Rattle.dds_disk.specs.Pages.{Pages, ReadPage, WrotePage};

use crate::disk::{Disk, DiskError};
use dds_base::memory::{Failed, Memory};
use dds_base::source::one_more;
use std::alloc::Global;
use std::fs::OpenOptions;
use std::io::{Read, Seek, SeekFrom, Write};
use std::rt::Files;

/// The pages that a file may have: their bytes have places below `2^63`.
const PAGES: u64 = 1 << 51;

/// Makes the file, or empties it.
fn create<R: Files>(rt: &R, path: &str) -> Result<R::File, Failed> {
    let mut options = OpenOptions::new();
    options.read(true);
    options.write(true);
    options.create(true);
    options.truncate(true);
    options.open(rt, path).map_err(|_| Failed)
}

/// Goes to the first byte of the page. No page of number `2^51` or above has a place.
fn go_to<F: Seek>(file: &mut F, page: u64) -> Result<(), Failed> {
    if page >= PAGES {
        return Err(Failed);
    }
    match file.seek(SeekFrom::Start(page * 4_096)) {
        Ok(_) => Ok(()),
        Err(_) => Err(Failed),
    }
}

/// Reads until the piece is full or the file ends, and answers how many bytes it read.
fn fill<F: Read>(file: &mut F, into: &mut [u8; 4_096]) -> Result<usize, Failed>
    ensures { IfOk result (λ n. n ≤ 4096) }
{
    let mut at = 0usize;
    'reading: while at < into.len() {
        match file.read(&mut into[at..]) {
            Ok(0) => return Ok(at),
            Ok(n) => at += n,
            Err(_) => return Err(Failed),
        }
    }
    Ok(at)
}

/// Reads the page; what stands behind the file's end is zeros.
fn read_page<F: Read + Seek>(
    file: &mut F,
    page: u64,
    into: &mut [u8; 4_096],
) -> Result<(), Failed> {
    go_to(file, page)?;
    let end = fill(file, into)?;
    into[end..].fill(0);
    Ok(())
}

/// Writes the page.
fn write_page<F: Write + Seek>(file: &mut F, page: u64, from: &[u8; 4_096]) -> Result<(), Failed> {
    go_to(file, page)?;
    match file.write_all(from) {
        Ok(()) => Ok(()),
        Err(_) => Err(Failed),
    }
}

/// Keeps its pages in a file, page after page from the file's first byte. Its first call makes the
/// file, or empties it; while that can't be done each call fails. So does a call for a page of
/// number `2^51` or above, and one that the system refuses; nothing is tried again. No call answers
/// `Memory`. After a failed write the file may have some of the page's bytes.
#[derive(Drop)]
pub struct FileDisk<'a, R: Files> {
    rt: &'a R,
    path: String,
    file: Option<R::File>,
    faults: u64,
}

impl<'a, R: Files> FileDisk<'a, R> {
    /// Makes a disk over the file of this path, and doesn't touch the file.
    pub fn new(rt: &'a R, alloc: Global, path: &str) -> Result<FileDisk<'a, R>, Memory>
        ensures path { IfOk result (λ disk. string_bytes disk.path ≡ path.now) }
        ensures file { IfOk result (λ disk. disk.file ≡ None) }
        ensures faults { IfOk result (λ disk. disk.faults ≡ 0) }
    {
        Ok(FileDisk {
            rt,
            path: String::from_str(alloc, path)?,
            file: None,
            faults: 0,
        })
    }

    /// How many of its calls failed.
    pub fn faults(&self) -> u64
        ensures { result ≡ self.now.faults }
    {
        self.faults
    }

    /// The file, which the first call makes.
    fn open(&mut self) -> Result<(), Failed>
        ensures faults { self.new.faults ≡ self.old.faults }
        ensures opened { OnOk result (IsSome self.new.file) }
    {
        if self.file.is_none() {
            self.file = Some(create(self.rt, self.path.as_str())?);
        }
        Ok(())
    }

    fn try_read(&mut self, page: u64, into: &mut [u8; 4_096]) -> Result<(), Failed>
        ensures faults { self.new.faults ≡ self.old.faults }
        ensures opened { OnOk result (IsSome self.new.file) }
    {
        self.open()?;
        match &mut self.file {
            Some(file) => read_page(file, page, into),
            None => Err(Failed),
        }
    }

    fn try_write(&mut self, page: u64, from: &[u8; 4_096]) -> Result<(), Failed>
        ensures faults { self.new.faults ≡ self.old.faults }
        ensures opened { OnOk result (IsSome self.new.file) }
    {
        self.open()?;
        match &mut self.file {
            Some(file) => write_page(file, page, from),
            None => Err(Failed),
        }
    }
}

impl<'a, R: Files> Disk for FileDisk<'a, R> {
    ghost pages = { λ _. None };

    ghost faults = { λ disk. disk.faults };

    fn read(&mut self, page: u64, into: &mut [u8; 4_096]) -> Result<(), DiskError>
        ensures gives { OnOk result (ReadPage None page into.new None) }
        ensures kept { let told : Option Pages = None in OnErr result (told ≡ told) }
        ensures rose { IsErrOf result DiskError.Failed → Rose self.old.faults self.new.faults }
        ensures never_falls { self.old.faults ≤ self.new.faults }
        ensures ok { OnOk result (self.new.faults ≡ self.old.faults) }
        ensures err { OnErr result (self.new.faults ≡ one_more self.old.faults) }
        ensures opened { OnOk result (IsSome self.new.file) }
        ensures memory { ¬ (IsErrOf result DiskError.Memory) }
    {
        match self.try_read(page, into) {
            Ok(()) => Ok(()),
            Err(Failed) => {
                self.faults = one_more(self.faults);
                Err(DiskError::Failed)
            }
        }
    }

    fn write(&mut self, page: u64, from: &[u8; 4_096]) -> Result<(), DiskError>
        ensures wrote { OnOk result (WrotePage None page from.now None) }
        ensures kept { let told : Option Pages = None in OnErr result (told ≡ told) }
        ensures rose { IsErrOf result DiskError.Failed → Rose self.old.faults self.new.faults }
        ensures never_falls { self.old.faults ≤ self.new.faults }
        ensures ok { OnOk result (self.new.faults ≡ self.old.faults) }
        ensures err { OnErr result (self.new.faults ≡ one_more self.old.faults) }
        ensures opened { OnOk result (IsSome self.new.file) }
        ensures memory { ¬ (IsErrOf result DiskError.Memory) }
    {
        match self.try_write(page, from) {
            Ok(()) => Ok(()),
            Err(Failed) => {
                self.faults = one_more(self.faults);
                Err(DiskError::Failed)
            }
        }
    }
}

//! Disks of memory and of a file.

use dds_disk::disk::{Disk, DiskError};
use dds_disk::file_disk::FileDisk;
use dds_disk::memory_disk::MemoryDisk;
use dds_disk::zero_disk::ZeroDisk;
use std::fs;
use std::test::Fail;

#[test]
fn keeps_its_pages(rt: HostRuntime) -> Result<(), Fail> {
    let mut disk = MemoryDisk::new(rt.alloc(), &[])?;
    let mut lent = &mut disk;
    assert_eq!(rt; lent.write(7, &[5; 4_096]), Ok(()));
    let mut bytes = [0; 4_096];
    assert_eq!(rt; lent.read(7, &mut bytes), Ok(()));
    assert!(rt; bytes == [5; 4_096]);
    Ok(())
}

#[test]
fn a_disk_of_zeros_keeps_its_first_pages(rt: HostRuntime) -> Result<(), Fail> {
    let mut disk = ZeroDisk::new(rt.alloc(), 1)?;
    assert_eq!(rt; disk.write(7, &[5; 4_096]), Ok(()));
    let mut bytes = [0; 4_096];
    assert_eq!(rt; disk.read(7, &mut bytes), Ok(()));
    assert!(rt; bytes == [5; 4_096]);
    Ok(())
}

/// Writes two pages.
fn fill_two<D: Disk>(disk: &mut D) -> Result<(), DiskError> {
    disk.write(3, &[5; 4_096])?;
    disk.write(1, &[6; 4_096])
}

/// The byte that the whole page consists of.
fn byte_of<D: Disk>(disk: &mut D, page: u64) -> Option<u8> {
    let mut bytes = [9; 4_096];
    disk.read(page, &mut bytes).ok()?;
    if bytes == [bytes[0]; 4_096] {
        Some(bytes[0])
    } else {
        None
    }
}

/// The bytes of the first pages, and of one that has no place in a file.
fn bytes_of<D: Disk>(disk: &mut D) -> [Option<u8>; 6] {
    [
        byte_of(disk, 0),
        byte_of(disk, 1),
        byte_of(disk, 2),
        byte_of(disk, 3),
        byte_of(disk, 4),
        byte_of(disk, 1 << 51),
    ]
}

#[test]
fn keeps_pages_in_a_file(rt: HostRuntime) -> Result<(), Fail> {
    let path = "/tmp/dds_disk_keeps_pages";
    fs::write(&rt, path, "a text that was there")?;
    let mut disk = FileDisk::new(&rt, rt.alloc(), path)?;
    assert_eq!(rt; byte_of(&mut disk, 0), Some(0), "the file was emptied");
    assert_eq!(rt; fill_two(&mut disk), Ok(()));
    let wanted = [Some(0), Some(6), Some(0), Some(5), Some(0), None];
    assert_eq!(rt; bytes_of(&mut disk), wanted);
    assert_eq!(rt; fs::metadata(&rt, path)?.len(), 4 * 4_096);
    fs::remove_file(&rt, path)?;
    Ok(())
}

#[test]
fn fails_where_the_file_cannot_be_made(rt: HostRuntime) -> Result<(), Fail> {
    let mut disk = FileDisk::new(&rt, rt.alloc(), "/tmp/no_such_folder/of/dds_disk")?;
    assert_eq!(rt; fill_two(&mut disk), Err(DiskError::Failed));
    assert_eq!(rt; byte_of(&mut disk, 0), None);
    assert_eq!(rt; disk.faults(), 2);
    Ok(())
}

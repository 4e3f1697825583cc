//! A cache over a disk of memory.

use dds_cache::cache::Cache;
use dds_disk::memory_disk::MemoryDisk;
use std::test::Fail;

#[test]
fn gives_what_was_written(rt: HostRuntime) -> Result<(), Fail> {
    let disk = MemoryDisk::new(rt.alloc(), &[])?;
    let mut cache = Cache::new(rt.alloc(), disk, 1)?;
    for (page, byte) in &[(0, 5), (1, 6), (1, 7)] {
        assert_eq!(rt; cache.write(*page, &[*byte; 4_096]), Ok(()));
    }
    for (page, byte) in &[(1, 7), (0, 5)] {
        assert!(rt; cache.read(*page) == Ok([*byte; 4_096]), "page {page}");
    }
    assert_eq!(rt; cache.into_disk().calls(), 4, "one page was held");
    Ok(())
}

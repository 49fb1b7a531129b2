use crate::ram::RamStore;
use std::process::Abort;
use std::test::Fail;
use stores::flat::FlatStore;
use stores::sectors::SectorStore;
use stores::{NoSuchPage, PageStore};

// Lengths of memory, with the pages that the flat store and the sector store have in them.
const LENGTHS: [(usize, usize, usize); 11] = [
    (0, 0, 0),
    (511, 0, 0),
    (512, 1, 0),
    (513, 1, 0),
    (4095, 7, 0),
    (4096, 8, 8),
    (4097, 8, 8),
    (4607, 8, 8),
    (4608, 9, 8),
    (8191, 15, 8),
    (8193, 16, 16),
];

// Gives each page bytes of its own, reads all back, and is refused past the last page.
fn exercise<S: PageStore>(rt: &impl Abort, store: &mut S, count: usize) -> Result<(), Fail> {
    assert_eq!(rt; store.count(), count);
    for page in 0..count {
        store.write(page, &[(page % 251) as u8; 512])?;
    }
    let mut buffer = [0; 512];
    for page in 0..count {
        store.read(page, &mut buffer)?;
        assert_eq!(rt; buffer, [(page % 251) as u8; 512]);
    }
    buffer = [9; 512];
    assert_eq!(rt; store.read(count, &mut buffer), Err(NoSuchPage));
    assert_eq!(rt; store.write(count, &[1; 512]), Err(NoSuchPage));
    assert_eq!(rt; store.write(usize::MAX, &[1; 512]), Err(NoSuchPage));
    assert_eq!(rt; buffer, [9; 512]);
    Ok(())
}

// The bytes from `start` on are still those that the memory began with.
fn untouched(rt: &impl Abort, memory: &[u8; 9000], start: usize) {
    for byte in memory.iter().skip(start) {
        assert_eq!(rt; *byte, 0xA5);
    }
}

#[test]
fn flat_store(rt: HostRuntime) -> Result<(), Fail> {
    for (len, pages, _) in LENGTHS {
        let mut memory = [0xA5; 9000];
        assert!(rt; len < 9000 && pages < 17);
        exercise(&rt, &mut FlatStore::new(&mut memory[0..len]), pages)?;
        untouched(&rt, &memory, 512 * pages);
    }
    Ok(())
}

#[test]
fn sector_store(rt: HostRuntime) -> Result<(), Fail> {
    for (len, _, pages) in LENGTHS {
        let mut memory = [0xA5; 9000];
        assert!(rt; len < 9000 && pages < 17);
        exercise(&rt, &mut SectorStore::new(&mut memory[0..len]), pages)?;
        untouched(&rt, &memory, 512 * pages);
    }
    Ok(())
}

#[test]
fn ram_store(rt: HostRuntime) -> Result<(), Fail> {
    exercise(&rt, &mut RamStore::new(), 4)
}

// A sector is erased just where a bit has to go from 0 to 1, and a refusal erases nothing.
#[test]
fn erases(rt: HostRuntime) -> Result<(), Fail> {
    let mut memory = [0xFF; 8192];
    let mut store = SectorStore::new(&mut memory);
    let writes = [
        (8, 0xF0, 0),
        (8, 0xF0, 0),
        (8, 0x30, 0),
        (8, 0x31, 1),
        (9, 0x31, 1),
        (16, 0, 1),
        (15, 0xFF, 1),
        (9, 0xFF, 2),
    ];
    for (page, byte, erases) in writes {
        let _ = store.write(page, &[byte; 512]);
        assert_eq!(rt; store.erases(), erases);
    }
    let mut buffer = [0; 512];
    store.read(8, &mut buffer)?;
    assert_eq!(rt; buffer, [0x31; 512]);
    Ok(())
}

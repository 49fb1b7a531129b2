use buckets::{add_record, start_bucket};
use grid::{Grid, hand_out};
use kinds::TrialT;
use promise::{Refusal, Shape};
use std::process::Abort;
use std::test::Fail;
use stores::PageStore;
use stores::flat::FlatStore;
use stores::sectors::SectorStore;

#[test]
fn a_new_grid_is_empty(rt: HostRuntime) {
    let mut memory = [0xAA; 16384];
    let mut store = FlatStore::new(&mut memory);
    let mut grid = Grid::new(TrialT::new());
    let mut buffer = [7; 512];
    assert!(rt; grid.find(&mut store, &[0, 0], &mut buffer) == Err(Refusal::WrongStore));
    assert!(rt; grid.make(&mut store) == Ok(10));
    let shape = Shape {
        pages: 10,
        directories: 1,
        leaves: 1,
    };
    assert!(rt; grid.shape(&store) == Ok(shape));
    assert!(rt; buffer == [7; 512]);
    assert!(rt; grid.find(&mut store, &[3, 3], &mut buffer) == Ok(None));
    assert!(rt; buffer[0] == 0x42 && buffer[1] == 0x4B && buffer[2] == 0 && buffer[511] == 0);
}

#[test]
fn bad_keys_and_places(rt: HostRuntime) {
    let mut memory = [0; 8192];
    let mut store = SectorStore::new(&mut memory);
    let mut grid = Grid::new(TrialT::new());
    let mut buffer = [7; 512];
    assert!(rt; grid.make(&mut store) == Ok(10));
    assert!(rt; grid.find(&mut store, &[0], &mut buffer) == Err(Refusal::BadKeys));
    assert!(rt; grid.find(&mut store, &[0, 4], &mut buffer) == Err(Refusal::BadKeys));
    assert!(rt; buffer == [7; 512]);
    assert!(rt; hand_out(&TrialT::new(), &buffer, 2).is_err());
    assert!(rt; hand_out(&TrialT::new(), &buffer, 1).is_ok());
}

// A page that breaks its layout is named, the directory page first, and the buffer stays.
#[test]
fn broken_pages_are_named(rt: HostRuntime) {
    let mut memory = [0; 16384];
    let mut store = FlatStore::new(&mut memory);
    let mut grid = Grid::new(TrialT::new());
    let mut buffer = [7; 512];
    assert!(rt; grid.make(&mut store) == Ok(10));
    assert!(rt; store.write(9, &[1; 512]).is_ok());
    assert!(rt; grid.find(&mut store, &[0, 0], &mut buffer) == Err(Refusal::BrokenPage(9)));
    assert!(rt; store.write(8, &[1; 512]).is_ok());
    assert!(rt; grid.find(&mut store, &[0, 0], &mut buffer) == Err(Refusal::BrokenPage(8)));
    assert!(rt; buffer == [7; 512]);
    assert!(rt; store.write(0, &[1; 512]).is_ok());
    assert!(rt; grid.make(&mut store) == Ok(10));
    assert!(rt; grid.find(&mut store, &[0, 0], &mut buffer) == Ok(None));
}

#[test]
fn a_store_of_nine_pages_is_too_small(rt: HostRuntime) {
    let mut memory = [0; 4608];
    let mut store = FlatStore::new(&mut memory);
    let mut grid = Grid::new(TrialT::new());
    assert!(rt; grid.make(&mut store) == Err(Refusal::WrongStore));
    assert!(rt; grid.shape(&store) == Err(Refusal::WrongStore));
}

// A bucket page with two records, put where the new grid has its empty one.
fn with_two_records<S: PageStore>(rt: &impl Abort, store: &mut S) {
    let kind = TrialT::new();
    let mut page = [0; 512];
    start_bucket(0, &mut page);
    assert!(rt; add_record(&kind, &mut page, &[0x54, 0x57, 1, 2]).is_ok());
    assert!(rt; add_record(&kind, &mut page, &[0x54, 0x57, 3, 0]).is_ok());
    assert!(rt; store.write(9, &page).is_ok());
}

#[test]
fn records_are_found_counted_and_listed(rt: HostRuntime) -> Result<(), Fail> {
    let mut memory = [0; 16384];
    let mut store = FlatStore::new(&mut memory);
    let mut grid = Grid::new(TrialT::new());
    assert!(rt; grid.make(&mut store) == Ok(10));
    with_two_records(&rt, &mut store);
    let mut page = [0; 512];
    assert!(rt; grid.find(&mut store, &[3, 0], &mut page) == Ok(Some(1)));
    let record = hand_out(&TrialT::new(), &page, 1).map_err(|_| Fail::new("no record"))?;
    assert!(rt; record == [0x54, 0x57, 3, 0].as_slice());
    assert!(rt; grid.count(&mut store, &[0, 0], &[3, 3]) == Ok(2));
    assert!(rt; grid.count(&mut store, &[1, 2], &[2, 2]) == Ok(1));
    assert!(rt; grid.count(&mut store, &[2, 1], &[3, 3]) == Ok(0));
    let mut list = [9; 10];
    assert!(rt;
        grid.list(&mut store, &[0, 0], &[3, 3], &mut list[0..7]) == Err(Refusal::ShortBuffer(8))
    );
    assert!(rt; list == [9; 10]);
    assert!(rt; grid.list(&mut store, &[0, 0], &[3, 3], &mut list) == Ok(2));
    assert!(rt; list == [0x54, 0x57, 1, 2, 0x54, 0x57, 3, 0, 9, 9]);
    Ok(())
}

#[test]
fn ranges_upside_down_and_broken_pages(rt: HostRuntime) {
    let mut memory = [0; 16384];
    let mut store = FlatStore::new(&mut memory);
    let mut grid = Grid::new(TrialT::new());
    assert!(rt; grid.make(&mut store) == Ok(10));
    assert!(rt; grid.count(&mut store, &[1, 0], &[0, 3]) == Err(Refusal::BadKeys));
    assert!(rt; grid.count(&mut store, &[0, 0], &[3, 4]) == Err(Refusal::BadKeys));
    assert!(rt; grid.count(&mut store, &[0], &[3]) == Err(Refusal::BadKeys));
    assert!(rt; store.write(9, &[1; 512]).is_ok());
    let mut list = [9; 10];
    assert!(rt; grid.list(&mut store, &[0, 0], &[3, 3], &mut list) == Err(Refusal::BrokenPage(9)));
    assert!(rt; list == [9; 10]);
}

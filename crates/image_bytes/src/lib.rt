// Images read from bytes and written to bytes.
#![tactic(auto)]

mod coded;
mod fields;
mod parsing;
mod reading;
mod writing;

pub use reading::{read_directory, read_root};
pub use writing::{write_directory, write_root};

#[cfg(test)]
mod tests {
    use crate::{read_directory, read_root, write_directory, write_root};
    use boxes::{GridBox, Space};
    use std::test::Fail;

    // One key of three bits, whose box is halved: one lower end, and two cells of level 1.
    #[test]
    fn directory_there_and_back(rt: HostRuntime) -> Result<(), Fail> {
        let Some(space) = Space::new(&[3]) else {
            return Err(Fail::new("no space"));
        };
        let whole = GridBox::whole(&space);
        let mut page = [0; 512];
        page[0..16].copy_from_slice(&[0x44, 0x49, 1, 0, 0, 2, 0, 0, 0, 0, 0, 0, 0, 0, 0, 0]);
        page[16..26].copy_from_slice(&[0, 0, 0, 4, 0, 8, 1, 0, 9, 1]);
        let Some(image) = read_directory(&whole, 10, &page) else {
            return Err(Fail::new("no image"));
        };
        let mut copy = [0xff; 512];
        write_directory(&image, 0, &mut copy);
        assert!(rt; copy == page);
        page[511] = 1;
        assert!(rt; read_directory(&whole, 10, &page).is_none());
        Ok(())
    }

    // The same in the root, but for its mark.
    #[test]
    fn root_there_and_back(rt: HostRuntime) -> Result<(), Fail> {
        let Some(space) = Space::new(&[3]) else {
            return Err(Fail::new("no space"));
        };
        let mut bytes = [0; 4096];
        bytes[0..16].copy_from_slice(&[0x52, 0x54, 1, 0, 0, 2, 0, 0, 0, 0, 0, 0, 0, 0, 0, 0]);
        bytes[16..26].copy_from_slice(&[0, 0, 0, 4, 0, 8, 1, 0, 9, 1]);
        let Some(image) = read_root(&space, 10, &bytes) else {
            return Err(Fail::new("no image"));
        };
        let mut copy = [0xff; 4096];
        write_root(&image, &mut copy);
        assert!(rt; copy == bytes);
        assert!(rt; read_root(&space, 9, &bytes).is_none());
        Ok(())
    }
}

// A directory box whose page is read.
use boxes::GridBox;
use images::DirectoryImage;

#[derive(Clone, Copy)]
pub struct Opened<'a> {
    pub inner: GridBox<'a>,
    pub image: DirectoryImage,
    // How many pages the store has.
    pub pages: usize,
}

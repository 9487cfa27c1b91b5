use crate::rights::Rights;

/// One page of the guest's memory. A page without rights stores nothing.
#[derive(Drop)]
pub(crate) enum Page {
    Absent,
    Bare,
    Held(Rights, Box<[u8; 4096]>),
}

/// 8,192 pages in a row. The rows of a large map without rights hold their bits alone, so that it costs a bit a page.
#[derive(Drop)]
pub(crate) struct Table {
    /// The pages; or none, where no page of them has had a right. Then each that is mapped is bare.
    pub(crate) pages: Vec<Page>,
    /// A bit for each page, in 128 words: whether it is mapped; or no word, where none of them has been. It is set aside when
    /// a page is mapped, so that to unmap one takes no memory.
    pub(crate) mapped: Vec<u64>,
}

/// A place in the code, with the number of its label or site.
#[derive(Clone, Copy, Debug, PartialEq, Eq)]
pub struct Mark {
    /// The number of the label or site.
    pub id: u32,
    /// The place, in bytes from the first item.
    pub at: u64,
}

/// What items give.
#[derive(Debug, Drop)]
pub struct Assembled {
    /// The bytes of the code: four a word, the lowest byte first.
    pub code: Vec<u8>,
    /// The places of the labels, in the order of the items.
    pub labels: Vec<Mark>,
    /// The places of the sites, in the order of the items.
    pub sites: Vec<Mark>,
}

// What a search finds: a hit as it is listed, and as closing names it.

// Hits are in order by key, and then by number: the order of the fields.
#[derive(Clone, Copy, Debug, Default, PartialEq, Eq, PartialOrd, Ord)]
pub struct Hit {
    pub key: u64,
    pub number: u32,
}

// A hit, and whether a standing entry of the catalogue has its number when the search is closed.
#[derive(Clone, Copy, Debug, Default, PartialEq, Eq)]
pub struct Named {
    pub number: u32,
    pub key: u64,
    pub standing: bool,
}

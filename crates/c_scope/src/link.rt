// Where a name was declared.

/// Where a name was declared: the number of the next name outward, the file that it stands in, and its number among the locals of its function.
#[derive(Clone, Copy, Debug, PartialEq, Eq)]
pub struct Link {
    pub up: Option<u32>,
    pub unit: u32,
    pub local: Option<u32>,
}

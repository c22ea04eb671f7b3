use heco_nums::List;

/// Where the value of a scalar root is: a number, or one slot of a root of a vector IR, which is counted from 0.
#[derive(Clone, Copy, Debug, PartialEq, Eq)]
pub enum Home {
    Number(u32),
    At { root: u32, slot: u16 },
}

/// One home for each root, in order.
pub type Homes = List<Home>;

/// A multiple of a wire that only output cells read: its own wire, and the constant.
#[derive(Clone, Copy, Debug)]
pub struct Multiple {
    pub wire: u32,
    pub by: u32,
}

/// A slot, and the constant that is wanted there.
#[derive(Clone, Copy, Debug)]
pub struct Asked {
    pub slot: u16,
    pub by: u32,
}

/// The wire that a gate multiplies by a constant, and the constant.
#[derive(Clone, Copy, Debug)]
pub struct Scaled {
    pub of: u32,
    pub by: u32,
}

/// The product in place of the multiples of a wire: the number of its vector, and the wire of the first of them.
#[derive(Clone, Copy, Debug)]
pub struct Product {
    pub vector: u32,
    pub first: u32,
}

/// A wire, and the product in place of its multiples.
#[derive(Clone, Copy, Debug)]
pub struct Replacing {
    pub of: u32,
    pub product: Product,
}

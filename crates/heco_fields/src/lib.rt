//! Files as lists of fields: each field is read and judged in order, and the first broken one is known by its place.
#![tactic(auto)]

mod fault;
mod fields;
mod header;
mod writing;

pub use fault::Fault;
pub use fields::{
    broken, fixed_at, header_at, i8_at, u8_within, u16_within, u32_at, u32_within, u64_within,
    versioned_at,
};
pub use header::Header;
pub use writing::{put_header, put_i8, put_u16, put_u32, put_u64, put_versioned};

#[cfg(test)]
mod tests;

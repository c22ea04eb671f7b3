use heco_poly::Poly;

/// Coefficient 0, where there are 16 and all others are 0.
pub fn constant(p: &Poly) -> Option<u64> {
    let (first, rest) = p.as_slice().split_first()?;
    for x in rest {
        if *x != 0 {
            return None;
        }
    }
    if rest.len() == 15 { Some(*first) } else { None }
}

ghost use Rattle.std.specs.Prelude.{◌≡◌, ◌≤◌, ◌<◌, ◌-◌, ◌+◌, ◌*◌, ◌%◌, map, IfOk};
ghost use Rattle.heco_meaning.specs.Meanings.{sums, differences, products, turned, filled};

use heco_nums::{List, Memory};
use std::alloc::Global;

pub fn negatives(alloc: Global, t: u32, xs: &[u32]) -> Result<List<u32>, Memory>
    requires { 1 ≤ t }
    ensures { IfOk result (λ out. out ≡ map (λ x. (t - x) % t) xs.now) }
{
    let mut out = List::new(alloc);
    let mut rest = xs;
    while let [x, after @ ..] = rest {
        out.push(t.saturating_sub(*x) % t)?;
        rest = after;
    }
    Ok(out)
}

fn sum(t: u32, x: u32, y: u32) -> u32
    requires { 1 ≤ t }
    ensures { result ≡ (x + y) % t }
{
    ((u64::from(x) + u64::from(y)) % u64::from(t)) as u32
}

fn difference(t: u32, x: u32, y: u32) -> u32
    requires { 1 ≤ t }
    ensures { result ≡ (x + (t - y % t)) % t }
{
    ((u64::from(x) + u64::from(t - y % t)) % u64::from(t)) as u32
}

fn product(t: u32, x: u32, y: u32) -> u32
    requires { 1 ≤ t }
    ensures { result ≡ (x * y) % t }
{
    (u64::from(x) * u64::from(y) % u64::from(t)) as u32
}

pub fn sums(alloc: Global, t: u32, xs: &[u32], ys: &[u32]) -> Result<List<u32>, Memory>
    requires { 1 ≤ t }
    ensures { IfOk result (λ out. out ≡ sums t xs.now ys.now) }
{
    let mut out = List::new(alloc);
    let (mut left, mut right) = (xs, ys);
    while let [x, more @ ..] = left {
        let [y, others @ ..] = right else {
            return Ok(out);
        };
        out.push(sum(t, *x, *y))?;
        left = more;
        right = others;
    }
    Ok(out)
}

pub fn differences(alloc: Global, t: u32, xs: &[u32], ys: &[u32]) -> Result<List<u32>, Memory>
    requires { 1 ≤ t }
    ensures { IfOk result (λ out. out ≡ differences t xs.now ys.now) }
{
    let mut out = List::new(alloc);
    let (mut left, mut right) = (xs, ys);
    while let [x, more @ ..] = left {
        let [y, others @ ..] = right else {
            return Ok(out);
        };
        out.push(difference(t, *x, *y))?;
        left = more;
        right = others;
    }
    Ok(out)
}

pub fn products(alloc: Global, t: u32, xs: &[u32], ys: &[u32]) -> Result<List<u32>, Memory>
    requires { 1 ≤ t }
    ensures { IfOk result (λ out. out ≡ products t xs.now ys.now) }
{
    let mut out = List::new(alloc);
    let (mut left, mut right) = (xs, ys);
    while let [x, more @ ..] = left {
        let [y, others @ ..] = right else {
            return Ok(out);
        };
        out.push(product(t, *x, *y))?;
        left = more;
        right = others;
    }
    Ok(out)
}

pub fn multiples(alloc: Global, t: u32, c: u32, xs: &[u32]) -> Result<List<u32>, Memory>
    requires { 1 ≤ t }
    ensures { IfOk result (λ out. out ≡ map (λ x. (c * x) % t) xs.now) }
{
    let mut out = List::new(alloc);
    let mut rest = xs;
    while let [x, after @ ..] = rest {
        out.push(product(t, c, *x))?;
        rest = after;
    }
    Ok(out)
}

pub fn shifted(alloc: Global, t: u32, c: u32, xs: &[u32]) -> Result<List<u32>, Memory>
    requires { 1 ≤ t }
    ensures { IfOk result (λ out. out ≡ map (λ x. (x + c) % t) xs.now) }
{
    let mut out = List::new(alloc);
    let mut rest = xs;
    while let [x, after @ ..] = rest {
        out.push(sum(t, *x, c))?;
        rest = after;
    }
    Ok(out)
}

/// Slot j gets what was at slot j + r, round the end.
pub fn turned(alloc: Global, r: u16, xs: &[u32]) -> Result<List<u32>, Memory>
    ensures { IfOk result (λ out. out ≡ turned r xs.now) }
{
    let (front, back) = xs.split_at((r as usize).min(xs.len()));
    let mut out = List::from_slice(alloc, back)?;
    out.extend_from_slice(front)?;
    Ok(out)
}

/// The values, and then zeros up to so many slots.
pub fn filled(alloc: Global, slots: u32, values: &[u32]) -> Result<List<u32>, Memory>
    ensures { IfOk result (λ out. out ≡ filled slots values.now) }
{
    let mut out = List::from_slice(alloc, values)?;
    let missing = (slots as usize).saturating_sub(values.len());
    for _ in 0..missing {
        out.push(0)?;
    }
    Ok(out)
}

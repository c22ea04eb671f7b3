ghost use Rattle.std.specs.Prelude.{◌≡◌, ◌+◌, ◌*◌, ◌<◌, ◌≤◌, ◌^◌, ℕ, All, IfOk, length, slice_index, slice_set, replicate};
ghost use Rattle.std.specs.Int.RustNames.{unsigned_abs};
ghost use Rattle.std.specs.Simd.Lanes.{put_chunk};
ghost use Rattle.heco_ring.specs.Remainders.{reduced};
ghost use Rattle.heco_ring.specs.Ring.{wholes, plus, negate, scale, times, turn};

use crate::{add, lanes, plain, product, residue, scale, small, sparse, sub, turn};
use heco_nums::{Memory, Preset};
use std::alloc::Global;
use std::marker::Model;
use std::simd::prelude::*;

/// A polynomial modulo q = 2^58, where x^n is -1: contracts see the list of its n coefficients, each below q.
#[derive(Debug, Drop)]
pub struct Poly {
    places: Vec<u64>,
}

impl Model for Poly {
    ghost use Rattle.std.specs.Prelude.{ℕ, List};
    ghost use Rattle.heco_poly.specs.Poly.{IsPoly};

    ghost Value = { List ℕ };

    ghost view = { λ p. p.places.items };

    ghost invariant = { λ p. IsPoly p.places.items };
}

impl Poly {
    /// 0, of the preset's n coefficients.
    pub fn zero(alloc: Global, p: &Preset) -> Result<Poly, Memory>
        ensures { IfOk result (λ a. a ≡ replicate p.now.n 0) }
    {
        Ok(Poly {
            places: vec![in alloc; 0; p.n as usize]?,
        })
    }

    /// n.
    pub fn len(&self) -> u32
        ensures { result ≡ length self.now }
    {
        self.places.len() as u32
    }

    pub fn as_slice(&self) -> &[u64]
        ensures value { result.now ≡ self.now }
        ensures below { All (λ x. x < 2 ^ 58) self.now }
        ensures short { length self.now ≤ 1024 }
    {
        self.places.as_slice()
    }

    /// Coefficient i.
    pub fn get(&self, i: u32) -> u64
        requires { i < length self.now }
        ensures value { result ≡ slice_index self.now i }
        ensures below { result < 2 ^ 58 }
    {
        self.places[i as usize]
    }

    /// Makes coefficient i the number v.
    pub fn set(&mut self, i: u32, v: u64)
        requires inside { i < length self.old }
        requires below { v < 2 ^ 58 }
        ensures { self.new ≡ slice_set self.old i v }
    {
        self.places[i as usize] = v;
    }

    /// Makes coefficients i to i + 3 the lanes of v.
    pub fn set_four(&mut self, i: u32, v: u64x4)
        requires inside { i + 4 ≤ length self.old }
        requires below { (j : ℕ) → j < 4 → slice_index v j < 2 ^ 58 }
        ensures value { self.new ≡ put_chunk i self.old v }
        ensures long { length self.new ≡ length self.old }
    {
        lanes::put_four(self.places.as_mut_slice(), i as usize, v);
    }

    /// Takes the coefficients of o.
    pub fn copy_in(&mut self, o: &Poly)
        requires { length o.now ≡ length self.old }
        ensures { self.new ≡ o.now }
    {
        self.places
            .as_mut_slice()
            .copy_from_slice(o.places.as_slice());
    }

    /// Adds o.
    pub fn add_in(&mut self, o: &Poly)
        requires { length o.now ≡ length self.old }
        ensures value { let n = length self.old in self.new ≡ reduced (2 ^ 58) n (plus n (wholes self.old) (wholes o.now)) }
        ensures long { length self.new ≡ length self.old }
    {
        add::add(self.places.as_mut_slice(), o.places.as_slice());
    }

    /// Takes o away.
    pub fn sub_in(&mut self, o: &Poly)
        requires { length o.now ≡ length self.old }
        ensures value { let n = length self.old in self.new ≡ reduced (2 ^ 58) n (plus n (wholes self.old) (negate n (wholes o.now))) }
        ensures long { length self.new ≡ length self.old }
    {
        sub::sub(self.places.as_mut_slice(), o.places.as_slice());
    }

    /// The negative.
    pub fn neg_in(&mut self)
        ensures value { let n = length self.old in self.new ≡ reduced (2 ^ 58) n (negate n (wholes self.old)) }
        ensures long { length self.new ≡ length self.old }
    {
        self.scale_in(-1);
    }

    /// The multiple by c.
    pub fn scale_in(&mut self, c: i64)
        requires { unsigned_abs c < 65537 }
        ensures value { let n = length self.old in self.new ≡ reduced (2 ^ 58) n (scale n c (wholes self.old)) }
        ensures long { length self.new ≡ length self.old }
    {
        scale::scale(self.places.as_mut_slice(), residue::of(c));
    }

    /// The product, by rows.
    pub fn mul_into(a: &Poly, b: &Poly, out: &mut Poly)
        requires b_len { length b.now ≡ length a.now }
        requires out_len { length out.old ≡ length a.now }
        ensures value { let n = length a.now in out.new ≡ reduced (2 ^ 58) n (times n (wholes a.now) (wholes b.now)) }
        ensures long { length out.new ≡ length out.old }
    {
        product::product(
            a.places.as_slice(),
            b.places.as_slice(),
            out.places.as_mut_slice(),
        );
    }

    /// The product by small whole numbers. The places that are 0 cost nothing.
    pub fn mul_sparse_into(small: &[i8], b: &Poly, out: &mut Poly)
        requires small_len { length small.now ≡ length b.now }
        requires out_len { length out.old ≡ length b.now }
        ensures value { let n = length b.now in out.new ≡ reduced (2 ^ 58) n (times n small.now (wholes b.now)) }
        ensures long { length out.new ≡ length out.old }
    {
        sparse::sparse(small, b.places.as_slice(), out.places.as_mut_slice());
    }

    /// The product, coefficient by coefficient: slow and plain.
    pub fn mul_plain_into(a: &Poly, b: &Poly, out: &mut Poly)
        requires b_len { length b.now ≡ length a.now }
        requires out_len { length out.old ≡ length a.now }
        ensures value { let n = length a.now in out.new ≡ reduced (2 ^ 58) n (times n (wholes a.now) (wholes b.now)) }
        ensures long { length out.new ≡ length out.old }
    {
        plain::product(
            a.places.as_slice(),
            b.places.as_slice(),
            out.places.as_mut_slice(),
        );
    }

    /// a(x^g), for g below 2n.
    pub fn turn_into(a: &Poly, g: u32, out: &mut Poly)
        requires out_len { length out.old ≡ length a.now }
        requires g_in { g < 2 * length a.now }
        ensures value { let n = length a.now in out.new ≡ reduced (2 ^ 58) n (turn n (wholes a.now) g) }
        ensures long { length out.new ≡ length out.old }
    {
        turn::turn(a.places.as_slice(), g as usize, out.places.as_mut_slice());
    }

    /// The polynomial of small whole numbers.
    pub fn small_into(words: &[i8], out: &mut Poly)
        requires { length words.now ≡ length out.old }
        ensures value { let n = length out.old in out.new ≡ reduced (2 ^ 58) n words.now }
        ensures long { length out.new ≡ length out.old }
    {
        small::small(words, out.places.as_mut_slice());
    }
}

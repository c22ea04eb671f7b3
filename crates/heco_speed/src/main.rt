//! Times the calls of the library: products, a product of ciphertexts and a key switch, of 1024 coefficients.
#![tactic(auto)]

mod ciphertext;
mod fill;
mod kernel;
mod key;
mod key_switch;
mod lanes;
mod plain_switch;
mod product;
mod tensor;

use crate::kernel::Kernel;
use crate::key::{bare_key, imaged_key};
use crate::key_switch::KeySwitch;
use crate::lanes::Lanes;
use crate::plain_switch::PlainSwitch;
use crate::product::Product;
use crate::tensor::Tensor;
use heco_nums::{Memory, Preset};
use std::alloc::Global;
use std::time::Instant;
use std::{env, io};

/// What is asked of the kernels.
#[derive(Clone, Copy)]
enum Asked {
    /// What each gives: the programs in C print the same.
    Results,
    /// The best time of each among so many.
    Times { rounds: u32 },
    /// That the kernel of this place runs so often.
    Runs { place: u32, times: u32 },
}

/// The best time of so many, in nanoseconds.
fn best<K: Kernel>(rt: &HostRuntime, kernel: &mut K, rounds: u32) -> io::Result<u64> {
    let mut best = u64::MAX;
    for _ in 0..rounds {
        let start = Instant::now(rt)?;
        kernel.run();
        let took = start.elapsed(rt)?.as_nanos();
        best = best.min((took & 0xffff_ffff) as u64);
    }
    Ok(best)
}

/// Does what is asked with the kernel of that place and name.
fn measure<K: Kernel>(
    rt: &HostRuntime,
    asked: Asked,
    place: u32,
    name: &str,
    kernel: &mut K,
) -> io::Result<()> {
    match asked {
        Asked::Results => {
            kernel.run();
            kernel.print(rt, name)
        }
        Asked::Times { rounds } => {
            let took = best(rt, kernel, rounds)?;
            println!(rt; "{name} {took}")
        }
        Asked::Runs {
            place: wanted,
            times,
        } if wanted == place => {
            for _ in 0..times {
                kernel.run();
            }
            Ok(())
        }
        Asked::Runs { .. } => Ok(()),
    }
}

/// The same with a kernel that was opened, if there was memory for it.
fn opened<K: Kernel + Drop>(
    rt: &HostRuntime,
    asked: Asked,
    place: u32,
    name: &str,
    kernel: Result<K, Memory>,
) -> io::Result<()> {
    match kernel {
        Ok(mut kernel) => measure(rt, asked, place, name, &mut kernel),
        Err(_) => Err(io::Error::from(io::ErrorKind::OutOfMemory)),
    }
}

fn ready_switch(alloc: Global, p: &Preset) -> Result<KeySwitch, Memory> {
    KeySwitch::open(alloc, p, imaged_key(alloc, p)?)
}

fn bare_switch(alloc: Global, p: &Preset) -> Result<KeySwitch, Memory> {
    KeySwitch::open(alloc, p, bare_key(alloc, p)?)
}

/// Does what is asked with each kernel.
fn run(rt: &HostRuntime, p: &Preset, asked: Asked) -> io::Result<()> {
    let alloc = rt.alloc();
    opened(rt, asked, 0, "product", Product::open(alloc, p))?;
    opened(rt, asked, 1, "product_lanes", Lanes::open(alloc, p))?;
    opened(rt, asked, 2, "tensor", Tensor::open(alloc, p))?;
    opened(rt, asked, 3, "key_switch", ready_switch(alloc, p))?;
    opened(rt, asked, 4, "key_switch_bare", bare_switch(alloc, p))?;
    opened(
        rt,
        asked,
        5,
        "key_switch_plain",
        PlainSwitch::open(alloc, p),
    )
}

fn main(rt: HostRuntime) -> io::Result<()> {
    let mut numbers = Vec::new(rt.alloc());
    for word in env::args(&rt)?.skip(1) {
        numbers.push(word.as_str().parse().unwrap_or(1))?;
    }
    let asked = match numbers.as_slice() {
        [rounds] => Asked::Times { rounds: *rounds },
        [place, times] => Asked::Runs {
            place: *place,
            times: *times,
        },
        _ => Asked::Results,
    };
    match Preset::by_id(5) {
        Some(p) => run(&rt, &p, asked),
        None => Ok(()),
    }
}

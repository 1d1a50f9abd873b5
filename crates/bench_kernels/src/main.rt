//! Runs one kernel many times over lists of 4,096 bytes, or the plain loop of its formula, and prints a sum
//! of the bytes that it left.
//!
//! It exists to be timed: `bench/measuring/kernels.sh` does so, and `docs/PERFORMANCE.md` has what it measured. It
//! carries no promise.
#![tactic(auto)]

ghost use Rattle.std.specs.Prelude.{◌≡◌, length};

use lane_kernels::Multiplier;
use std::{env, io};

/// The bytes of a list: the lists stay in the first cache.
const LENGTH: usize = 4096;

/// The factors of the products. Every factor takes the same steps.
const FACTOR: u8 = 0x8E;

const OTHER_FACTOR: u8 = 0xF4;

const USAGE: &str =
    "usage: bench_kernels xor_into|double_xor|scale_xor|scale|weigh|first_nonzero lanes|plain ROUNDS";

#[derive(Clone, Copy)]
enum Kernel {
    XorInto,
    DoubleXor,
    ScaleXor,
    Scale,
    Weigh,
    FirstNonzero,
}

#[derive(Clone, Copy)]
enum Way {
    Lanes,
    Plain,
}

fn kernel_named(word: &str) -> Option<Kernel> {
    match word {
        "xor_into" => Some(Kernel::XorInto),
        "double_xor" => Some(Kernel::DoubleXor),
        "scale_xor" => Some(Kernel::ScaleXor),
        "scale" => Some(Kernel::Scale),
        "weigh" => Some(Kernel::Weigh),
        "first_nonzero" => Some(Kernel::FirstNonzero),
        _ => None,
    }
}

fn way_named(word: &str) -> Option<Way> {
    match word {
        "lanes" => Some(Way::Lanes),
        "plain" => Some(Way::Plain),
        _ => None,
    }
}

fn bytes(first: u8, step: u8) -> [u8; LENGTH] {
    let mut list = [0u8; LENGTH];
    let mut value = first;
    for at in 0..LENGTH {
        list[at] = value;
        value = value.wrapping_add(step);
    }
    list
}

fn sum_of(list: &[u8]) -> u64 {
    let mut sum = 0u64;
    for byte in list {
        sum = sum.wrapping_mul(31).wrapping_add(*byte as u64);
    }
    sum
}

// The formulas of the kernels, by plain loops.

fn plain_xor_into(a: &mut [u8], b: &[u8])
    requires { length a.old ≡ length b.now }
{
    for at in 0..a.len() {
        a[at] ^= b[at];
    }
}

fn plain_double_xor(a: &mut [u8], b: &[u8])
    requires { length a.old ≡ length b.now }
{
    for at in 0..a.len() {
        a[at] = gf256::add(gf256::mul(2, a[at]), b[at]);
    }
}

fn plain_scale_xor(a: &mut [u8], b: &[u8], factor: u8)
    requires { length a.old ≡ length b.now }
{
    for at in 0..a.len() {
        a[at] = gf256::add(a[at], gf256::mul(factor, b[at]));
    }
}

fn plain_scale(a: &mut [u8], factor: u8) {
    for at in 0..a.len() {
        a[at] = gf256::mul(factor, a[at]);
    }
}

fn plain_weigh(to: &mut [u8], p: &[u8], q: &[u8])
    requires p { length to.old ≡ length p.now }
    requires q { length to.old ≡ length q.now }
{
    for at in 0..to.len() {
        to[at] = gf256::add(gf256::mul(FACTOR, p[at]), gf256::mul(OTHER_FACTOR, q[at]));
    }
}

fn plain_first_nonzero(a: &[u8]) -> Option<usize> {
    a.iter().position(|byte| *byte != 0)
}

// One round over a, which holds what the last round left, and b, which stays.
fn change(kernel: Kernel, way: Way, a: &mut [u8; LENGTH], b: &[u8; LENGTH]) {
    match (kernel, way) {
        (Kernel::XorInto, Way::Lanes) => lane_kernels::xor_into(a, b),
        (Kernel::XorInto, Way::Plain) => plain_xor_into(a, b),
        (Kernel::DoubleXor, Way::Lanes) => lane_kernels::double_xor(a, b),
        (Kernel::DoubleXor, Way::Plain) => plain_double_xor(a, b),
        (Kernel::ScaleXor, Way::Lanes) => lane_kernels::scale_xor(a, b, FACTOR),
        (Kernel::ScaleXor, Way::Plain) => plain_scale_xor(a, b, FACTOR),
        (Kernel::Scale, Way::Lanes) => lane_kernels::scale(a, FACTOR),
        (Kernel::Scale, Way::Plain) => plain_scale(a, FACTOR),
        (Kernel::Weigh | Kernel::FirstNonzero, _) => (),
    }
}

// One round of weighing, with the tables that were made before all rounds.
fn weigh(
    way: Way,
    to: &mut [u8; LENGTH],
    p: &[u8; LENGTH],
    by_p: &Multiplier,
    q: &[u8; LENGTH],
    by_q: &Multiplier,
) {
    match way {
        Way::Lanes => lane_kernels::weigh(to, p, by_p, q, by_q),
        Way::Plain => plain_weigh(to, p, q),
    }
}

// The place that a search finds in a list of zeros with another last byte each round.
fn search(way: Way, zeros: &mut [u8; LENGTH], round: u32) -> usize {
    zeros[LENGTH - 1] = (round % 255) as u8 + 1;
    let place = match way {
        Way::Lanes => lane_kernels::first_nonzero(zeros),
        Way::Plain => plain_first_nonzero(zeros),
    };
    place.unwrap_or(LENGTH)
}

fn run(kernel: Kernel, way: Way, rounds: u32) -> u64 {
    let mut a = bytes(11, 37);
    let b = bytes(200, 101);
    let mut other = [0u8; LENGTH];
    let by_a = Multiplier::new(FACTOR);
    let by_b = Multiplier::new(OTHER_FACTOR);
    let mut places = 0u64;
    for round in 0..rounds {
        match kernel {
            Kernel::FirstNonzero => {
                places = places.wrapping_add(search(way, &mut other, round) as u64);
            }
            Kernel::Weigh => {
                a[0] = (round % 256) as u8;
                weigh(way, &mut other, &a, &by_a, &b, &by_b);
            }
            _ => change(kernel, way, &mut a, &b),
        }
    }
    sum_of(&a).wrapping_add(sum_of(&other)).wrapping_add(places)
}

fn main(rt: HostRuntime) -> io::Result<()> {
    let mut words = env::args(&rt)?.skip(1);
    let (Some(kernel), Some(way), Some(rounds)) = (words.next(), words.next(), words.next()) else {
        return println!(rt; "{USAGE}");
    };
    let (Some(kernel), Some(way), Ok(rounds)) = (
        kernel_named(kernel.as_str()),
        way_named(way.as_str()),
        rounds.as_str().parse::<u32>(),
    ) else {
        return println!(rt; "{USAGE}");
    };
    println!(rt; "{}", run(kernel, way, rounds))
}

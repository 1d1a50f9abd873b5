//! Walks over the first lists of a space, of which every prefix is admitted, and prints how many leaves it met and a sum of
//! their ranks and slots.
//!
//! It exists to be timed: `bench/measuring/leaves.sh` does so, and `docs/PERFORMANCE.md` has what it measured. It
//! carries no promise.
#![tactic(auto)]

mod everything;

use candidate_enum::{Leaf, Survivors};
use everything::Everything;
use raid_params::MOST;
use slot_math::Space;
use std::{env, io};

const USAGE: &str = "usage: bench_walk IMAGES MEMBERS EMPTY RANKS";

fn weight(leaf: &Leaf) -> u64 {
    let mut sum = leaf.rank;
    if let Some(Some(image)) = leaf.slots.as_slice().first() {
        sum ^= u64::from(*image);
    }
    sum
}

/// How many leaves a walk of the ranks below `stop` gives, and their sum.
fn run(space: Space, ranks: u64) -> (u64, u64) {
    let everything = Everything { space };
    let mut leaves = 0u64;
    let mut sum = 0u64;
    if space.images as usize > MOST || space.members as usize > MOST {
        return (leaves, sum);
    }
    if u128::from(ranks) > space.total() {
        return (leaves, sum);
    }
    let mut walk = Survivors::start(&everything, 0, ranks);
    while let Some(leaf) = walk.next() {
        leaves = leaves.wrapping_add(1);
        sum = sum.wrapping_mul(31).wrapping_add(weight(&leaf));
    }
    (leaves, sum)
}

fn main(rt: HostRuntime) -> io::Result<()> {
    let mut numbers = [0u64; 4];
    let mut words = env::args(&rt)?.skip(1);
    for at in 0..4 {
        let Some(word) = words.next() else {
            return println!(rt; "{USAGE}");
        };
        let Ok(number) = word.as_str().parse::<u64>() else {
            return println!(rt; "{USAGE}");
        };
        numbers[at] = number;
    }
    let [images, members, empty, ranks] = numbers;
    if images > 24 || members > 24 || empty > 24 {
        return println!(rt; "{USAGE}");
    }
    let space = Space {
        images: images as u8,
        members: members as u8,
        low: 0,
        high: empty as u8,
    };
    let (leaves, sum) = run(space, ranks);
    println!(rt; "{leaves} {sum}")
}

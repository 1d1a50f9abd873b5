//! The register, forward and backward.

ghost use Rattle.std.specs.Prelude.{ℕ, ◌≡◌, ◌<◌, ◌^◌};
ghost use Rattle.crc32c.specs.Register.{register_after, register_before, shifts, unshifts};

use crate::tables::{PLACES, TABLE};

/// The register after the bytes, which went through it from `register` on.
pub fn after(register: u32, bytes: &[u8]) -> u32
    ensures { result ≡ register_after register bytes.now }
{
    let mut now = register;
    for byte in bytes {
        now = forward(now ^ *byte as u32);
    }
    now
}

/// The register before the bytes: the only one from which they leave `register`.
#[tactic(auto, using(crate::proofs::Registers::after_before, crate::proofs::Registers::only_before))]
pub fn before(register: u32, bytes: &[u8]) -> u32
    ensures definition { result ≡ register_before register bytes.now }
    ensures forward { register_after result bytes.now ≡ register }
    ensures only { (x : ℕ) → x < 2 ^ 32 → register_after x bytes.now ≡ register → x ≡ result }
{
    let mut now = register;
    let mut left = bytes.len();
    while 0 < left {
        left -= 1;
        now = backward(now) ^ bytes[left] as u32;
    }
    now
}

/// The register eight bits further.
#[tactic(auto, using(crate::proofs::Bytes::by_table))]
fn forward(register: u32) -> u32
    ensures { result ≡ shifts 8 register }
{
    TABLE[(register % 256) as usize] ^ (register / 256)
}

/// The register eight bits before.
#[tactic(auto, using(crate::proofs::Bytes::by_places, crate::proofs::Bytes::high_fits, crate::proofs::Bytes::place_fits))]
fn backward(register: u32) -> u32
    ensures { result ≡ unshifts 8 register }
{
    let low = PLACES[(register / (1 << 24)) as usize];
    let high = register ^ TABLE[low as usize];
    high * 256 + low as u32
}

//! What the kernels read from a list at once.
ghost use Rattle.std.specs.Prelude.{ℕ, ◌≡◌, ◌+◌, ◌≤◌, ◌<◌, length};
ghost use Rattle.std.specs.Simd.Lanes.{chunk, Each1};

use std::simd::prelude::*;

/// The 32 bytes from place `at` on, one a lane.
pub fn load(bytes: &[u8], at: usize) -> u8x32
    requires { at + 32 ≤ length bytes.now }
    ensures value { result ≡ chunk at 32 bytes.now }
    ensures long { length result ≡ 32 }
    ensures fits { Each1 (λ x. x < 256) result }
{
    u8x32::from_slice(&bytes[at..])
}

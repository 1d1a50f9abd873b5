//! The kernels beside plain loops. The products here are by shifts and sums, and by no table.
ghost use Rattle.std.specs.Prelude.{◌≤◌};

use lane_kernels::{Multiplier, double_xor, first_nonzero, scale, scale_xor, weigh, xor_into};

// No vector; less than one; one; one and a rest; many.
const LENGTHS: [usize; 7] = [0, 1, 15, 31, 32, 33, 512];

fn twice(a: u8) -> u8 {
    if a < 128 {
        a * 2
    } else {
        ((a - 128) * 2) ^ 0x1D
    }
}

fn times(a: u8, b: u8) -> u8 {
    let mut sum = 0;
    let mut shifted = a;
    for bit in 0..8u8 {
        if (b >> bit) % 2 == 1 {
            sum ^= shifted;
        }
        shifted = twice(shifted);
    }
    sum
}

fn bytes(first: u8, step: u8) -> [u8; 512] {
    let mut list = [0u8; 512];
    let mut value = first;
    for at in 0..512usize {
        list[at] = value;
        value = value.wrapping_add(step);
    }
    list
}

// Two lists of bytes.
fn left() -> [u8; 512] {
    bytes(11, 37)
}

fn right() -> [u8; 512] {
    bytes(200, 101)
}

// A kernel that changes its first list, with its factor.
#[derive(Clone, Copy, Debug)]
enum Kernel {
    Xor,
    DoubleXor,
    ScaleXor,
    Scale,
}

// The left list after the kernel went over that many bytes of both.
fn changed(kernel: Kernel, length: usize) -> [u8; 512]
    requires { length ≤ 512 }
{
    let (mut a, b) = (left(), right());
    match kernel {
        Kernel::Xor => xor_into(&mut a[..length], &b[..length]),
        Kernel::DoubleXor => double_xor(&mut a[..length], &b[..length]),
        Kernel::ScaleXor => scale_xor(&mut a[..length], &b[..length], 0x8E),
        Kernel::Scale => scale(&mut a[..length], 0xF4),
    }
    a
}

// What the kernel's formula says of two bytes.
fn formula(kernel: Kernel, a: u8, b: u8) -> u8 {
    match kernel {
        Kernel::Xor => a ^ b,
        Kernel::DoubleXor => twice(a) ^ b,
        Kernel::ScaleXor => a ^ times(0x8E, b),
        Kernel::Scale => times(0xF4, a),
    }
}

// The left list with the formula in as many places.
fn expected(kernel: Kernel, length: usize) -> [u8; 512]
    requires { length ≤ 512 }
{
    let (mut a, b) = (left(), right());
    for at in 0..length {
        a[at] = formula(kernel, a[at], b[at]);
    }
    a
}

#[test]
fn each_place_holds_the_formula(rt: HostRuntime) {
    for length in LENGTHS {
        assert!(rt; length <= 512);
        for kernel in [
            Kernel::Xor,
            Kernel::DoubleXor,
            Kernel::ScaleXor,
            Kernel::Scale,
        ] {
            assert!(rt;
                changed(kernel, length) == expected(kernel, length),
                "{kernel:?} over {length}"
            );
        }
    }
}

// Sevens after the weighed sum was written over that many of them.
fn weighed(length: usize) -> [u8; 512]
    requires { length ≤ 512 }
{
    let (p, q) = (left(), right());
    let (by_p, by_q) = (Multiplier::new(0x8E), Multiplier::new(0xF4));
    let mut sum = [7; 512];
    weigh(&mut sum[..length], &p[..length], &by_p, &q[..length], &by_q);
    sum
}

// The same by the formula.
fn expected_sum(length: usize) -> [u8; 512]
    requires { length ≤ 512 }
{
    let (p, q) = (left(), right());
    let mut sum = [7; 512];
    for at in 0..length {
        sum[at] = times(0x8E, p[at]) ^ times(0xF4, q[at]);
    }
    sum
}

#[test]
fn each_place_holds_the_weighed_sum(rt: HostRuntime) {
    for length in LENGTHS {
        assert!(rt; length <= 512);
        assert!(rt; weighed(length) == expected_sum(length), "over {length}");
    }
}

// Which of so many zeros is found, once the last is 80 where `last` says so, and then the middle one 1.
fn found(length: usize, last: bool, middle: bool) -> Option<usize>
    requires { length ≤ 512 }
{
    let mut list = [0u8; 512];
    if last && 0 < length {
        list[length - 1] = 0x80;
    }
    if middle && 0 < length {
        list[length / 2] = 1;
    }
    first_nonzero(&list[..length])
}

#[test]
fn finds_the_first_byte_that_is_not_zero(rt: HostRuntime) {
    for length in LENGTHS {
        assert!(rt; length <= 512);
        assert!(rt; found(length, false, false).is_none(), "{length} zeros");
        if length > 0 {
            assert!(rt;
                found(length, true, false) == Some(length - 1),
                "the last of {length}"
            );
            assert!(rt;
                found(length, true, true) == Some(length / 2),
                "the middle of {length}"
            );
        }
    }
}

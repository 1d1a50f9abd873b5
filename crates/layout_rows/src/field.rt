//! Values of the field of Q, worked out by hand from the polynomial: 2 * 8E = 11C ^ 11D = 1, and
//! 3 * F4 = F4 ^ 1E8 ^ 11D = 1.
use gf256::{add, divide, inverse, mul, power};

#[test]
fn sums_and_products(rt: HostRuntime) {
    assert!(rt; add(0x9D, 0x1D) == 0x80);
    for (a, b, want) in [
        (0x02, 0x80, 0x1D),
        (0x04, 0x80, 0x3A),
        (0x03, 0x80, 0x9D),
        (0, 7, 0),
    ] {
        assert!(rt; mul(a, b) == want, "{a} times {b}");
    }
    for (k, want) in [(0, 0x01), (1, 0x02), (8, 0x1D), (254, 0x8E), (255, 0x01)] {
        assert!(rt; power(k) == want, "2 to the {k}");
    }
}

#[test]
fn inverses_and_quotients(rt: HostRuntime) {
    assert!(rt; inverse(0x02) == 0x8E);
    assert!(rt; inverse(0x03) == 0xF4);
    assert!(rt; divide(0x1D, 0x80) == 0x02);
    assert!(rt; divide(0, 0x80) == 0);
}

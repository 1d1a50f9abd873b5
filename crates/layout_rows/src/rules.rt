//! Rules at their edges.
use landmark_rules::{Rule, fits};

// Whether a volume sector fits such a rule, from an origin on.
fn fits_every(step: u64, count: u64, plus: u64, origin: u64, volume_sector: u64) -> bool {
    fits(&Rule::Every { step, count, plus }, origin, volume_sector)
}

#[test]
fn multiples_of_nothing_are_one_distance(rt: HostRuntime) {
    assert!(rt; fits_every(0, 5, 3, 0, 3));
    assert!(rt; !fits_every(0, 5, 3, 0, 2));
    assert!(rt; !fits_every(0, 5, 3, 0, 4));
}

#[test]
fn no_multiples_fit_nowhere(rt: HostRuntime) {
    assert!(rt; !fits_every(8, 0, 3, 0, 3));
    assert!(rt; !fits_every(8, 0, 3, 0, 11));
}

#[test]
fn far_distances_do_not_wrap(rt: HostRuntime) {
    let far = 1 << 54;
    assert!(rt; fits_every(far, 2, far - 1, far, far + far - 1));
    assert!(rt; fits_every(far, 2, far - 1, far, far + far + far - 1));
    assert!(rt; !fits_every(far, 2, far - 1, far, far - 1));
    assert!(rt; fits_every(u64::MAX, 3, u64::MAX, 0, u64::MAX));
    assert!(rt; !fits_every(u64::MAX, 3, u64::MAX, 0, u64::MAX - 1));
}

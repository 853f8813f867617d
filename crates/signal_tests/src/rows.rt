// Worked rows.
use crate::{lane_mask, pair_mask};
use five::Five;
use nine::{Nine, Three};
use packed::Packed;
use signal::{Algebra, SearchAlgebra};

#[test]
fn five_values(rt: HostRuntime) {
    assert_eq!(rt; Five::D.and(Five::E), Five::Zero);
    assert_eq!(rt; Five::D.and(Five::X), Five::X);
    assert_eq!(rt; Five::D.xor(Five::E), Five::One);
    assert_eq!(rt; Five::unknown().stuck(false), Five::X);
}

#[test]
fn nine_values(rt: HostRuntime) {
    let product = Nine::of(Three::One, Three::X).and(Nine::of(Three::X, Three::Zero));
    assert_eq!(rt; product, Nine::of(Three::X, Three::Zero));
    assert_eq!(rt; product.number(), 6);
    assert_eq!(rt;
        Nine::unknown().stuck(false),
        Nine::of(Three::X, Three::Zero)
    );
}

#[test]
fn packed_lanes(rt: HostRuntime) {
    let v = Packed::load(0b1100).and(Packed::load(0b1010));
    assert_eq!(rt; v.good(), 0b1000);
    assert_eq!(rt; v.stuck(true).difference(), !0b1000);
    assert_eq!(rt; Packed::of(0b01, 0b10).not().difference(), 0b11);
}

#[test]
fn lanes(rt: HostRuntime) {
    assert_eq!(rt; lane_mask::<Five>(), 1);
    assert_eq!(rt; lane_mask::<Nine>(), 1);
    assert_eq!(rt; lane_mask::<Packed>(), u64::MAX);
    assert_eq!(rt; pair_mask(), 1);
}

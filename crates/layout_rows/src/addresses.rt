//! Two rows of a small array, worked out by hand.
use address_map::{Home, MemberPlace, locate, place, volume_sectors};
use raid_params::{Head, Level, Pattern, Syndrome};

// Left-symmetric over four members, two sectors a chunk, from sector 5 on: rows 0 1 2 P and
// 1 2 P 0.
#[test]
fn two_rows(rt: HostRuntime) {
    let head = Head {
        level: Level::Raid5,
        members: 4,
        pattern: Pattern::Ls,
        delay: 1,
        syndrome: Syndrome::NoQ,
        chunk: 2,
        offset: 5,
    };
    assert!(rt; head.is_valid());
    assert!(rt; volume_sectors(&head, 10) == 12);
    let home = Home {
        row: 1,
        item: 0,
        slot: 3,
        sector: 3,
    };
    assert!(rt; locate(&head, 10, 7) == Some(home));
    assert!(rt; locate(&head, 10, 12).is_none());
    assert!(rt; place(&head, 10, 3, 3) == MemberPlace::At(7));
    assert!(rt; place(&head, 10, 2, 3) == MemberPlace::Parity);
    assert!(rt; place(&head, 10, 3, 4) == MemberPlace::Outside);
}

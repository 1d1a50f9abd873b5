//! Arrays of more than sixteen images, up to as many as there may be.
use crate::rows::{Row, TWENTY_FOUR, Written, check_all, writes_all};
use std::test::Fail;

/// Three members among 24 images of one sector.
const THREE_OF_ALL: &str =
    "reraid-plan 1\nimages 24\nlength 1\nlength 1\nlength 1\nlength 1\nlength 1\nlength 1\nlength 1\nlength 1\nlength 1\nlength 1\nlength 1\nlength 1\nlength 1\nlength 1\nlength 1\nlength 1\nlength 1\nlength 1\nlength 1\nlength 1\nlength 1\nlength 1\nlength 1\nlength 1\nend 1\nlevels 5\nmembers 3\npatterns ls\nsyndromes none\nchunks 1\noffsets 0\norigins 0\nmissing 0\nforeign 21\nbadrows 0\nwindow 1\nmisfits 0\nleast 1\ndone\n";

/// All 24 images are members.
const ALL: &str =
    "reraid-plan 1\nimages 24\nlength 1\nlength 1\nlength 1\nlength 1\nlength 1\nlength 1\nlength 1\nlength 1\nlength 1\nlength 1\nlength 1\nlength 1\nlength 1\nlength 1\nlength 1\nlength 1\nlength 1\nlength 1\nlength 1\nlength 1\nlength 1\nlength 1\nlength 1\nlength 1\nend 1\nlevels 5\nmembers 24\npatterns ls\nsyndromes none\nchunks 1\noffsets 0\norigins 0\nmissing 0\nforeign 0\nbadrows 0\nwindow 1\nmisfits 0\nleast 1\ndone\n";

/// 20 images, all of them members.
const TWENTY: &str =
    "reraid-plan 1\nimages 20\nlength 1\nlength 1\nlength 1\nlength 1\nlength 1\nlength 1\nlength 1\nlength 1\nlength 1\nlength 1\nlength 1\nlength 1\nlength 1\nlength 1\nlength 1\nlength 1\nlength 1\nlength 1\nlength 1\nlength 1\nend 1\nlevels 5\nmembers 20\npatterns ls\nsyndromes none\nchunks 1\noffsets 0\norigins 0\nmissing 0\nforeign 0\nbadrows 0\nwindow 1\nmisfits 0\nleast 1\ndone\n";

/// 21 images, all of them members.
const TWENTY_ONE: &str =
    "reraid-plan 1\nimages 21\nlength 1\nlength 1\nlength 1\nlength 1\nlength 1\nlength 1\nlength 1\nlength 1\nlength 1\nlength 1\nlength 1\nlength 1\nlength 1\nlength 1\nlength 1\nlength 1\nlength 1\nlength 1\nlength 1\nlength 1\nlength 1\nend 1\nlevels 5\nmembers 21\npatterns ls\nsyndromes none\nchunks 1\noffsets 0\norigins 0\nmissing 0\nforeign 0\nbadrows 0\nwindow 1\nmisfits 0\nleast 1\ndone\n";

/// The line on the notes where a product is too large.
const TOO_MANY: &str = "reraid: the product has more than 18446744073709551615 sets\n";

/// Their listings, over sectors of zeros, of which every order is sound.
const LISTINGS: [Row; 5] = [
    Row {
        line: "list size=2 -- a b c d e f g h i j k l m n o p q r s t u v w x",
        images: TWENTY_FOUR,
        plan: THREE_OF_ALL,
        status: 0,
        out: "0 5:ls:none:1:0:0,1,2\n1 5:ls:none:1:0:0,1,3\nnext 2 of 12144\n",
        notes: "",
    },
    Row {
        line: "list from=12143 -- a b c d e f g h i j k l m n o p q r s t u v w x",
        images: TWENTY_FOUR,
        plan: THREE_OF_ALL,
        status: 0,
        out: "12143 5:ls:none:1:0:23,22,21\nnext 12144 of 12144\n",
        notes: "",
    },
    Row {
        line: "list -- a b c d e f g h i j k l m n o p q r s t u v w x",
        images: TWENTY_FOUR,
        plan: ALL,
        status: 5,
        out: "",
        notes: TOO_MANY,
    },
    Row {
        line: "list from=2432902008176639999 -- a b c d e f g h i j k l m n o p q r s t",
        images: TWENTY_FOUR,
        plan: TWENTY,
        status: 0,
        out: "2432902008176639999 5:ls:none:1:0:19,18,17,16,15,14,13,12,11,10,9,8,7,6,5,4,3,2,1,0\nnext 2432902008176640000 of 2432902008176640000\n",
        notes: "",
    },
    Row {
        line: "list -- a b c d e f g h i j k l m n o p q r s t u",
        images: TWENTY_FOUR,
        plan: TWENTY_ONE,
        status: 5,
        out: "",
        notes: TOO_MANY,
    },
];

// 24 * 23 * 22 are 12,144, and the last list is that of the three last images, the last one first. 20! are
// 2,432,902,008,176,640,000, and 21! and 24! are above 2^64.
#[test]
fn listings_of_many_images(rt: HostRuntime) -> Result<(), Fail> {
    check_all(&rt, rt.alloc(), &LISTINGS)
}

/// Generated arrays of one row of chunks of eight sectors, with 19 and 20 members at level 0, and with 19 at level 5.
const SAMPLES: [Row; 3] = [
    Row {
        line: "sample number=7 set=0:plain:none:8:0:0,1,2,3,4,5,6,7,8,9,10,11,12,13,14,15,16,17,18 rows=1 --",
        images: &[],
        plan: "",
        status: 0,
        out: "images 19\nsectors 8\nmarks 0\ntotal 4379223614717952000\nfound yes\nnext 1000 of 4379223614717952000\n",
        notes: "",
    },
    Row {
        line: "sample number=7 set=0:plain:none:8:0:0,1,2,3,4,5,6,7,8,9,10,11,12,13,14,15,16,17,18,19 rows=1 --",
        images: &[],
        plan: "",
        status: 5,
        out: "",
        notes: TOO_MANY,
    },
    Row {
        line: "sample number=7 set=5:ls:none:8:0:0,1,2,3,4,5,6,7,8,9,10,11,12,13,14,15,16,17,18 rows=1 --",
        images: &[],
        plan: "",
        status: 5,
        out: "",
        notes: TOO_MANY,
    },
];

// 9 chunks and 4 offsets are 36 heads at level 0, and with 6 patterns 216 at level 5. 36 * 19! are
// 4,379,223,614,717,952,000; 36 * 20! and 216 * 19! are above 2^64. At level 0 every order passes.
#[test]
fn generated_arrays_of_many_members(rt: HostRuntime) -> Result<(), Fail> {
    check_all(&rt, rt.alloc(), &SAMPLES)
}

/// The members of three rows of 24 slots but for those in slots 2 and 22, as computed below.
const TWO_LOST: &[&[u8]] = &[
    &[111, 233, 238],
    &[5, 22, 73],
    &[9, 118, 5],
    &[14, 169, 102],
    &[21, 222, 201],
    &[30, 21, 46],
    &[41, 78, 149],
    &[54, 137, 254],
    &[69, 198, 105],
    &[86, 5, 214],
    &[105, 70, 69],
    &[126, 137, 182],
    &[149, 206, 41],
    &[174, 21, 158],
    &[201, 94, 21],
    &[230, 169, 142],
    &[5, 246, 9],
    &[38, 69, 134],
    &[73, 150, 5],
    &[110, 233, 134],
    &[149, 62, 23],
    &[47, 43, 149],
];

/// What is written of them: the volume, and both lost members.
const WRITTEN: [Written; 3] = [
    Written {
        line: "write set=6:ls:after-q:1:0:0,1,-,2,3,4,5,6,7,8,9,10,11,12,13,14,15,16,17,18,19,20,-,21 -- a b c d e f g h i j k l m n o p q r s t u v",
        images: TWO_LOST,
        out: &[
            5, 6, 9, 14, 21, 30, 41, 54, 69, 86, 105, 126, 149, 174, 201, 230, 5, 38, 73, 110, 149,
            190, 233, 22, 69, 118, 169, 222, 21, 78, 137, 198, 5, 70, 137, 206, 21, 94, 169, 246,
            69, 150, 233, 62, 149, 238, 73, 166, 5, 102, 201, 46, 149, 254, 105, 214, 69, 182, 41,
            158, 21, 142, 9, 134, 5, 134,
        ],
    },
    Written {
        line: "rebuild set=6:ls:after-q:1:0:0,1,-,2,3,4,5,6,7,8,9,10,11,12,13,14,15,16,17,18,19,20,-,21 slot=2 -- a b c d e f g h i j k l m n o p q r s t u v",
        images: TWO_LOST,
        out: &[6, 69, 166],
    },
    Written {
        line: "rebuild set=6:ls:after-q:1:0:0,1,-,2,3,4,5,6,7,8,9,10,11,12,13,14,15,16,17,18,19,20,-,21 slot=22 -- a b c d e f g h i j k l m n o p q r s t u v",
        images: TWO_LOST,
        out: &[190, 187, 199],
    },
];

/// In row 0 two data sectors are lost, in row 1 one and P, in row 2 one and Q. The bytes were computed so, from the
/// definitions alone (Python):
///
///     def times(byte, power):
///         for _ in range(power):
///             byte = byte << 1 ^ (0x11D if byte > 127 else 0)
///         return byte
///
///     slots, volume = [[] for _ in range(24)], [(k * k + 5) % 256 for k in range(66)]
///     for row in range(3):
///         items, p, q = volume[22 * row:22 * row + 22], 0, 0
///         for item, byte in enumerate(items):
///             p, q = p ^ byte, q ^ times(byte, item)
///         for step, byte in enumerate([p, q] + items):
///             slots[(23 - row + step) % 24].append(byte)
#[test]
fn two_of_24_members_are_lost(rt: HostRuntime) -> Result<(), Fail> {
    writes_all(&rt, rt.alloc(), &WRITTEN)
}

//! The texts of plans.
use outside::Memory;
use std::alloc::Global;

/// The plan of the first listing: three images of two sectors, RAID 5 left-symmetric, chunks of
/// one sector.
pub const PLAN: &str =
    "reraid-plan 1\nimages 3\nlength 2\nlength 2\nlength 2\nend 2\nlevels 5\nmembers 3\npatterns ls\nsyndromes none\nchunks 1\noffsets 0\norigins 0\nmissing 0\nforeign 0\nbadrows 0\nwindow 2\nmisfits 0\nleast 1\ndone\n";

/// What it lists where every order of the images passes.
pub const LISTING: &str =
    "0 5:ls:none:1:0:0,1,2\n1 5:ls:none:1:0:0,2,1\n2 5:ls:none:1:0:1,0,2\n3 5:ls:none:1:0:1,2,0\n4 5:ls:none:1:0:2,0,1\n5 5:ls:none:1:0:2,1,0\nnext 6 of 6\n";

/// The plan of the first listing, but one sector row of the two may break its equation.
pub const PLAN_WITH_A_BAD_ROW: &str =
    "reraid-plan 1\nimages 3\nlength 2\nlength 2\nlength 2\nend 2\nlevels 5\nmembers 3\npatterns ls\nsyndromes none\nchunks 1\noffsets 0\norigins 0\nmissing 0\nforeign 0\nbadrows 1\nwindow 2\nmisfits 0\nleast 1\ndone\n";

/// Two images of an array of three members.
pub const ONE_LOST: &str =
    "reraid-plan 1\nimages 2\nlength 2\nlength 2\nend 2\nlevels 5\nmembers 3\npatterns ls\nsyndromes none\nchunks 1\noffsets 0\norigins 0\nmissing 1\nforeign 0\nbadrows 0\nwindow 2\nmisfits 0\nleast 1\ndone\n";

/// Four images of an array of three members.
pub const ONE_FOREIGN: &str =
    "reraid-plan 1\nimages 4\nlength 2\nlength 2\nlength 2\nlength 2\nend 2\nlevels 5\nmembers 3\npatterns ls\nsyndromes none\nchunks 1\noffsets 0\norigins 0\nmissing 0\nforeign 1\nbadrows 0\nwindow 2\nmisfits 0\nleast 1\ndone\n";

/// Levels 0 and 5 over two or three members of three images.
pub const TWO_LEVELS: &str =
    "reraid-plan 1\nimages 3\nlength 2\nlength 2\nlength 2\nend 2\nlevels 0,5\nmembers 2,3\npatterns plain,ls\nsyndromes none\nchunks 1\noffsets 0\norigins 0\nmissing 0\nforeign 1\nbadrows 0\nwindow 2\nmisfits 0\nleast 1\ndone\n";

/// Level 6 over four members, with each order of Q.
pub const LEVEL_SIX: &str =
    "reraid-plan 1\nimages 4\nlength 1\nlength 1\nlength 1\nlength 1\nend 1\nlevels 6\nmembers 4\npatterns ls\nsyndromes after-q,by-data,by-slot\nchunks 1\noffsets 0\norigins 0\nmissing 0\nforeign 0\nbadrows 0\nwindow 1\nmisfits 0\nleast 1\ndone\n";

/// Three images of an array of four members.
pub const LEVEL_SIX_LOST: &str =
    "reraid-plan 1\nimages 3\nlength 1\nlength 1\nlength 1\nend 1\nlevels 6\nmembers 4\npatterns ls\nsyndromes after-q\nchunks 1\noffsets 0\norigins 0\nmissing 1\nforeign 0\nbadrows 0\nwindow 1\nmisfits 0\nleast 1\ndone\n";

/// Level 5 over six members of one sector.
pub const SIX_IMAGES: &str =
    "reraid-plan 1\nimages 6\nlength 1\nlength 1\nlength 1\nlength 1\nlength 1\nlength 1\nend 1\nlevels 5\nmembers 6\npatterns ls\nsyndromes none\nchunks 1\noffsets 0\norigins 0\nmissing 0\nforeign 0\nbadrows 0\nwindow 1\nmisfits 0\nleast 1\ndone\n";

/// Levels 5 and 6 over six members, two patterns, and each order of Q.
pub const SIX_MEMBERS: &str =
    "reraid-plan 1\nimages 6\nlength 6\nlength 6\nlength 6\nlength 6\nlength 6\nlength 6\nend 6\nlevels 5,6\nmembers 6\npatterns la,ra\nsyndromes none,after-q,by-data,by-slot\nchunks 1\noffsets 0\norigins 0\nmissing 0\nforeign 0\nbadrows 0\nwindow 6\nmisfits 0\nleast 1\ndone\n";

/// Level 6 over sixteen images: 13 patterns, 3 orders of Q, 16 chunks and 64 offsets.
pub const TOO_MANY_SETS: &str =
    "reraid-plan 1\nimages 16\nlength 1\nlength 1\nlength 1\nlength 1\nlength 1\nlength 1\nlength 1\nlength 1\nlength 1\nlength 1\nlength 1\nlength 1\nlength 1\nlength 1\nlength 1\nlength 1\nend 1\nlevels 6\nmembers 16\npatterns la,ra,ls,rs,parity-first,parity-last,n-restart,n-continue,la-6,ra-6,ls-6,rs-6,parity-first-6\nsyndromes after-q,by-data,by-slot\nchunks 1,2,4,8,16,32,64,128,256,512,1024,2048,4096,8192,16384,32768\noffsets 0,1,2,3,4,5,6,7,8,9,10,11,12,13,14,15,16,17,18,19,20,21,22,23,24,25,26,27,28,29,30,31,32,33,34,35,36,37,38,39,40,41,42,43,44,45,46,47,48,49,50,51,52,53,54,55,56,57,58,59,60,61,62,63\norigins 0\nmissing 2\nforeign 2\nbadrows 0\nwindow 1\nmisfits 0\nleast 1\ndone\n";

/// A header of a partition table at the start of the second image, which has to lie at volume sector 1.
pub const ONE_HEADER: &str =
    "reraid-plan 1\nimages 2\nlength 2\nlength 2\nend 2\nlevels 0\nmembers 2\npatterns plain\nsyndromes none\nchunks 1,2\noffsets 0\norigins 0\nmissing 0\nforeign 0\nbadrows 0\nwindow 2\nmisfits 0\nleast 1\ngroup gpt\nmark gpt 1 0 at:1\ndone\n";

/// The headers at the starts of two images, of three members.
pub const TWO_HEADERS: &str =
    "reraid-plan 1\nimages 3\nlength 1\nlength 1\nlength 1\nend 1\nlevels 5\nmembers 3\npatterns ls\nsyndromes none\nchunks 1\noffsets 0\norigins 0\nmissing 0\nforeign 0\nbadrows 0\nwindow 1\nmisfits 0\nleast 1\ngroup gpt\nmark gpt 1 0 at:1\nmark gpt 2 0 at:1\ndone\n";

/// The same, with one more image.
pub const TWO_HEADERS_OF_FOUR: &str =
    "reraid-plan 1\nimages 4\nlength 1\nlength 1\nlength 1\nlength 1\nend 1\nlevels 5\nmembers 3\npatterns ls\nsyndromes none\nchunks 1\noffsets 0\norigins 0\nmissing 0\nforeign 1\nbadrows 1\nwindow 1\nmisfits 0\nleast 1\ngroup gpt\nmark gpt 1 0 at:1\nmark gpt 2 0 at:1\ndone\n";

/// The same, with the first of the two headers alone.
pub const ONE_HEADER_OF_FOUR: &str =
    "reraid-plan 1\nimages 4\nlength 1\nlength 1\nlength 1\nlength 1\nend 1\nlevels 5\nmembers 3\npatterns ls\nsyndromes none\nchunks 1\noffsets 0\norigins 0\nmissing 0\nforeign 1\nbadrows 1\nwindow 1\nmisfits 0\nleast 1\ngroup gpt\nmark gpt 1 0 at:1\ndone\n";

/// The landmarks of an XFS of four groups of 136 sectors, which begins at volume sector 2048.
pub const XFS: &str =
    "reraid-plan 1\nimages 4\nlength 640\nlength 640\nlength 640\nlength 640\nend 640\nlevels 0\nmembers 4\npatterns plain\nsyndromes none\nchunks 8,16\noffsets 0\norigins 0,2048\nmissing 0\nforeign 0\nbadrows 0\nwindow 640\nmisfits 0\nleast 1\ngroup xfs\nmark super 0 512 every:136:4:0\nmark agf 0 513 at:1\nmark agi 0 514 at:2\nmark super 1 544 every:136:4:0\nmark agf 1 545 at:137\nmark agi 1 546 at:138\nmark super 2 576 every:136:4:0\nmark agf 2 577 at:273\nmark agi 2 578 at:274\nmark super 3 608 every:136:4:0\nmark agf 3 609 at:409\nmark agi 3 610 at:410\ndone\n";

/// The same, where only volume sector 0 is tried.
pub const XFS_AT_THE_START: &str =
    "reraid-plan 1\nimages 4\nlength 640\nlength 640\nlength 640\nlength 640\nend 640\nlevels 0\nmembers 4\npatterns plain\nsyndromes none\nchunks 8,16\noffsets 0\norigins 0\nmissing 0\nforeign 0\nbadrows 0\nwindow 640\nmisfits 0\nleast 1\ngroup xfs\nmark super 0 512 every:136:4:0\nmark agf 0 513 at:1\nmark agi 0 514 at:2\nmark super 1 544 every:136:4:0\nmark agf 1 545 at:137\nmark agi 1 546 at:138\nmark super 2 576 every:136:4:0\nmark agf 2 577 at:273\nmark agi 2 578 at:274\nmark super 3 608 every:136:4:0\nmark agf 3 609 at:409\nmark agi 3 610 at:410\ndone\n";

/// A mark that lies nowhere: its rule has no distance.
pub const NO_DISTANCE: &str =
    "reraid-plan 1\nimages 3\nlength 2\nlength 2\nlength 2\nend 2\nlevels 5\nmembers 3\npatterns ls\nsyndromes none\nchunks 1\noffsets 0\norigins 0\nmissing 0\nforeign 0\nbadrows 0\nwindow 2\nmisfits 0\nleast 1\ngroup ntfs\nmark boot 0 0 every:0:0:0\ndone\n";

/// What `survey` prints of three images of 100 sectors without a landmark.
pub const NO_LANDMARK: &str =
    "reraid-plan 1\nimages 3\nlength 100\nlength 100\nlength 100\nend 100\nlevels 0,5,6\nmembers 3\npatterns plain,la,ra,ls,rs,parity-first,parity-last,n-restart,n-continue,la-6,ra-6,ls-6,rs-6,parity-first-6\nsyndromes none,after-q,by-data,by-slot\nchunks 8,16,32,64,128,256,512,1024,2048\noffsets 0,2048,262144,264192\norigins 0,2048\nmissing 0\nforeign 0\nbadrows 0\nwindow 100\nmisfits 0\nleast 1\ndone\n";

/// Five members of one sector, of which every order is tried.
pub const FIVE_MEMBERS: &str =
    "reraid-plan 1\nimages 5\nlength 1\nlength 1\nlength 1\nlength 1\nlength 1\nend 1\nlevels 5\nmembers 5\npatterns ls\nsyndromes none\nchunks 1\noffsets 0\norigins 0\nmissing 0\nforeign 0\nbadrows 0\nwindow 1\nmisfits 0\nleast 1\ndone\n";

/// Level 6 over sixteen images of one sector: 13 patterns, 3 orders of Q, 15 chunks of two sectors and more, and 64 offsets.
pub const NO_WHOLE_ROW: &str =
    "reraid-plan 1\nimages 16\nlength 1\nlength 1\nlength 1\nlength 1\nlength 1\nlength 1\nlength 1\nlength 1\nlength 1\nlength 1\nlength 1\nlength 1\nlength 1\nlength 1\nlength 1\nlength 1\nend 1\nlevels 6\nmembers 16\npatterns la,ra,ls,rs,parity-first,parity-last,n-restart,n-continue,la-6,ra-6,ls-6,rs-6,parity-first-6\nsyndromes after-q,by-data,by-slot\nchunks 2,4,8,16,32,64,128,256,512,1024,2048,4096,8192,16384,32768\noffsets 0,1,2,3,4,5,6,7,8,9,10,11,12,13,14,15,16,17,18,19,20,21,22,23,24,25,26,27,28,29,30,31,32,33,34,35,36,37,38,39,40,41,42,43,44,45,46,47,48,49,50,51,52,53,54,55,56,57,58,59,60,61,62,63\norigins 0\nmissing 1\nforeign 1\nbadrows 0\nwindow 1\nmisfits 0\nleast 1\ndone\n";

/// Three images of three sectors, of which all data begin at sector 0 or at sector 1.
pub const COMMON_OFFSET: &str =
    "reraid-plan 1\nimages 3\nlength 3\nlength 3\nlength 3\nend 3\nlevels 5\nmembers 3\npatterns ls\nsyndromes none\nchunks 1\noffsets 0,1\norigins 0\nmissing 0\nforeign 0\nbadrows 0\nwindow 2\nmisfits 0\nleast 1\ndone\n";

/// The same, where the data of each begin at one of these sectors.
pub const EACH_OFFSET: &str =
    "reraid-plan 2\nimages 3\nlength 3\nlength 3\nlength 3\nend 3\nlevels 5\nmembers 3\npatterns ls\nsyndromes none\nchunks 1\noffsets 0,1\norigins 0\nmissing 0\nforeign 0\nbadrows 0\nwindow 2\nmisfits 0\nleast 1\ndone\n";

/// The same with two marks.
pub const EACH_OFFSET_MARKED: &str =
    "reraid-plan 2\nimages 3\nlength 3\nlength 3\nlength 3\nend 3\nlevels 5\nmembers 3\npatterns ls\nsyndromes none\nchunks 1\noffsets 0,1\norigins 0\nmissing 0\nforeign 0\nbadrows 0\nwindow 2\nmisfits 0\nleast 2\ngroup gpt\nmark gpt 1 0 at:1\nmark gpt 2 1 at:2\ndone\n";

/// Level 0 over sixteen images of one sector, each with one of 64 offsets.
pub const TOO_MANY_BASES: &str =
    "reraid-plan 2\nimages 16\nlength 1\nlength 1\nlength 1\nlength 1\nlength 1\nlength 1\nlength 1\nlength 1\nlength 1\nlength 1\nlength 1\nlength 1\nlength 1\nlength 1\nlength 1\nlength 1\nend 1\nlevels 0\nmembers 16\npatterns plain\nsyndromes none\nchunks 1\noffsets 0,1,2,3,4,5,6,7,8,9,10,11,12,13,14,15,16,17,18,19,20,21,22,23,24,25,26,27,28,29,30,31,32,33,34,35,36,37,38,39,40,41,42,43,44,45,46,47,48,49,50,51,52,53,54,55,56,57,58,59,60,61,62,63\norigins 0\nmissing 0\nforeign 0\nbadrows 0\nwindow 1\nmisfits 0\nleast 1\ndone\n";

/// Three images, of which two have 2^54 sectors and the first has one less.
pub const LONG: &str =
    "reraid-plan 1\nimages 3\nlength 18014398509481983\nlength 18014398509481984\nlength 18014398509481984\nend 2\nlevels 5\nmembers 3\npatterns ls\nsyndromes none\nchunks 1\noffsets 0\norigins 0\nmissing 0\nforeign 0\nbadrows 0\nwindow 2\nmisfits 0\nleast 1\ndone\n";

/// The bytes of a text.
pub fn bytes_of(alloc: Global, text: &str) -> Result<Vec<u8>, Memory> {
    text.as_bytes().to_vec(alloc).map_err(|_| Memory)
}

/// The plan of the first listing with another text in the place of a line, counted from 1.
pub fn with_line(alloc: Global, number: usize, text: &str) -> Result<Vec<u8>, Memory> {
    let mut bytes = Vec::new(alloc);
    let mut place = 0usize;
    for line in PLAN.split('\n') {
        place = place.saturating_add(1);
        let line = if place == number { text } else { line };
        bytes
            .extend_from_slice(line.as_bytes())
            .map_err(|_| Memory)?;
        bytes.push(b'\n').map_err(|_| Memory)?;
    }

    // What follows the last line feed is no line.
    bytes.pop();
    Ok(bytes)
}

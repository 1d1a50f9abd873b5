//! Tables of small rows, told in words: of each image whether it is zeros, free, which is independent, or the sum of others. The
//! products here are by shifts and sums, and by no table.
use row_relations::{MOST_IMAGES, RowTable, Standing};
use std::alloc::Global;
use std::process::Abort;
use std::test::Fail;

type Sector = [u8; 512];

const ZEROS: Sector = [0; 512];

fn twice(a: u8) -> u8 {
    if a < 128 {
        a * 2
    } else {
        ((a - 128) * 2) ^ 0x1D
    }
}

fn times(a: u8, b: u8) -> u8 {
    let mut sum = 0;
    let mut shifted = a;
    for bit in 0..8u8 {
        if (b >> bit) % 2 == 1 {
            sum ^= shifted;
        }
        shifted = twice(shifted);
    }
    sum
}

// Bytes that look like data. Sectors of different seeds are linearly independent: each is 1 in a column of its own, in which
// the others are 0.
fn data(seed: u8) -> Sector {
    let mut sector = ZEROS;
    let mut value = seed;
    for at in 256..512usize {
        value = value.wrapping_mul(167).wrapping_add(seed).wrapping_add(13);
        sector[at] = value;
    }
    sector[seed as usize] = 1;
    sector
}

// Adds a sector times a factor.
fn add(sum: &mut Sector, other: &Sector, factor: u8) {
    for at in 0..512usize {
        sum[at] ^= times(factor, other[at]);
    }
}

// The first sector plus the second one times a factor.
fn plus(a: Sector, b: Sector, factor: u8) -> Sector {
    let mut sum = a;
    add(&mut sum, &b, factor);
    sum
}

fn fill<R: AllocGlobal + Abort>(
    rt: &R,
    table: &mut RowTable,
    sectors: &[Sector],
) -> Result<(), Fail> {
    let mut bytes = Vec::new(rt.alloc());
    for sector in sectors {
        bytes.extend_from_slice(sector)?;
    }
    assert_eq!(rt; bytes.len(), 512 * table.images());
    table.fill(&bytes);
    Ok(())
}

fn push_sum(text: &mut String, table: &RowTable, image: usize) -> Result<(), Fail> {
    let mut before = false;
    for other in 0..table.images() {
        if image >= table.images() {
            break;
        }
        let weight = table.weight(image, other);
        if weight != 0 {
            if before {
                text.push('+')?;
            }
            write!(text, "{weight}*{other}")?;
            before = true;
        }
    }
    Ok(())
}

fn words_of(alloc: Global, table: &RowTable) -> Result<String, Fail> {
    let mut text = String::new(alloc);
    for image in 0..table.images() {
        match table.standing(image) {
            Standing::Zero => text.push_str("zeros")?,
            Standing::Independent => text.push_str("free")?,
            Standing::Dependent => push_sum(&mut text, table, image)?,
        }
        text.push(';')?;
    }
    Ok(text)
}

fn told<R: AllocGlobal + Abort>(rt: &R, sectors: &[Sector]) -> Result<String, Fail> {
    assert!(rt; sectors.len() <= MOST_IMAGES);
    let mut table = RowTable::new(rt.alloc(), sectors.len())?;
    fill(rt, &mut table, sectors)?;
    words_of(rt.alloc(), &table)
}

#[test]
fn two_equal_images(rt: HostRuntime) -> Result<(), Fail> {
    let text = told(&rt, &[data(1), data(1)])?;
    assert_eq!(rt; text.as_str(), "free;1*0;");
    Ok(())
}

#[test]
fn three_images_of_raid_5(rt: HostRuntime) -> Result<(), Fail> {
    let text = told(&rt, &[data(1), data(2), plus(data(1), data(2), 1)])?;
    assert_eq!(rt; text.as_str(), "free;free;1*0+1*1;");
    Ok(())
}

// Row 0 of eight members: Q on slot 0, the six items on slots 1 to 6 with the exponents 0 to 5, and P on slot 7. Slot 3 is
// missing, whose exponent is 2, so Q + 4 P is known: it is the sum of (2^k + 4) times item k. So P is Q / 4 plus the sum of
// (2^k / 4 + 1) times item k, where 1 / 4 is 71 and 2 / 4 is 142.
#[test]
fn seven_of_eight_images_of_raid_6(rt: HostRuntime) -> Result<(), Fail> {
    let mut p = ZEROS;
    let mut q = ZEROS;
    for (item, power) in [(1, 1), (2, 2), (3, 4), (4, 8), (5, 16), (6, 32)] {
        let block = data(item);
        add(&mut p, &block, 1);
        add(&mut q, &block, power);
    }
    let text = told(&rt, &[q, data(1), data(2), data(4), data(5), data(6), p])?;
    assert_eq!(rt;
        text.as_str(),
        "free;free;free;free;free;free;71*0+70*1+143*2+3*3+5*4+9*5;"
    );
    Ok(())
}

#[test]
fn zeros_are_tied_to_nothing(rt: HostRuntime) -> Result<(), Fail> {
    let text = told(&rt, &[ZEROS, data(1), ZEROS, data(1)])?;
    assert_eq!(rt; text.as_str(), "zeros;free;zeros;1*1;");
    Ok(())
}

#[test]
fn multiples_of_an_image(rt: HostRuntime) -> Result<(), Fail> {
    let text = told(
        &rt,
        &[data(7), plus(ZEROS, data(7), 5), plus(ZEROS, data(7), 200)],
    )?;
    assert_eq!(rt; text.as_str(), "free;5*0;200*0;");
    Ok(())
}

#[test]
fn a_foreign_image_stays_free(rt: HostRuntime) -> Result<(), Fail> {
    let text = told(&rt, &[data(1), data(9), data(2), plus(data(2), data(1), 1)])?;
    assert_eq!(rt; text.as_str(), "free;free;free;1*0+1*2;");
    Ok(())
}

#[test]
fn two_arrays(rt: HostRuntime) -> Result<(), Fail> {
    let text = told(
        &rt,
        &[
            data(1),
            data(3),
            plus(data(1), data(2), 1),
            data(4),
            data(2),
            plus(data(4), data(3), 1),
        ],
    )?;
    assert_eq!(rt; text.as_str(), "free;free;free;free;1*0+1*2;1*1+1*3;");
    Ok(())
}

// The first 63 are free, and the last one is their sum.
#[test]
fn sixty_four_images(rt: HostRuntime) -> Result<(), Fail> {
    let mut sectors = Vec::new(rt.alloc());
    let mut all = ZEROS;
    for seed in 0..63u8 {
        let free = data(seed);
        sectors.push(free)?;
        add(&mut all, &free, 1);
    }
    sectors.push(all)?;
    assert_eq!(rt; sectors.len(), MOST_IMAGES);
    let mut table = RowTable::new(rt.alloc(), sectors.len())?;
    fill(&rt, &mut table, &sectors)?;
    assert_eq!(rt; table.rank(), 63);
    assert!(rt; table.images() == 64);
    assert_eq!(rt; table.standing(63), Standing::Dependent);
    for image in 0..63usize {
        assert_eq!(rt; table.weight(63, image), 1, "at {image}");
    }
    Ok(())
}

#[test]
fn a_table_is_made_anew_for_each_row(rt: HostRuntime) -> Result<(), Fail> {
    let mut table = RowTable::new(rt.alloc(), 3)?;
    fill(&rt, &mut table, &[data(1), data(1), ZEROS])?;
    assert_eq!(rt; words_of(rt.alloc(), &table)?.as_str(), "free;1*0;zeros;");
    fill(
        &rt,
        &mut table,
        &[data(1), data(2), plus(data(2), data(1), 3)],
    )?;
    assert_eq!(rt;
        words_of(rt.alloc(), &table)?.as_str(),
        "free;free;3*0+1*1;"
    );
    Ok(())
}

//! The sectors of a row, one after the other.
ghost use Rattle.std.specs.Prelude.{ℕ, ◌≡◌, ◌+◌, ◌*◌, ◌<◌, ◌≤◌, length};
ghost use Rattle.member_regions.specs.ImageSums.{room_byte};
ghost use Rattle.member_regions.specs.Regions.{IsRoomFor};
ghost use Rattle.row_relations.specs.Rows.{byte_of, AreBytes};
ghost use Rattle.row_relations.specs.Tables.{IsTable};

use member_regions::Regions;
use outside::SECTOR;
use row_relations::RowTable;

/// Fills `to` with the sectors number `place` of the first `images` regions.
pub(crate) fn copy_row(regions: &Regions, images: usize, place: usize, to: &mut [u8])
    requires images { images ≤ 64 }
    requires room { IsRoomFor images (place + 1) regions.now }
    requires long { length to.old ≡ 512 * images }
    ensures long { length to.new ≡ 512 * images }
    ensures sectors { (i x : ℕ) → i < images → x < 512 → byte_of to.new i x ≡ room_byte regions.now (512 * place + x) i }
{
    for image in 0..images {
        let start = SECTOR * image;
        to[start..start + SECTOR].copy_from_slice(regions.region(image, place, 1));
    }
}

/// Makes the table of a row of these sectors.
pub(crate) fn fill_table(table: &mut RowTable, sectors: &[u8])
    requires { length sectors.now ≡ 512 * length table.old.standings }
    ensures table { IsTable (length table.old.standings) sectors.now table.new }
    ensures bytes { AreBytes sectors.now }
{
    table.fill(sectors);
}

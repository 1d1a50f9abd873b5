//! The boot sector.

ghost use Rattle.std.specs.Prelude.{◌≡◌, ◌≤◌, IfSome, IsTrue};
ghost use Rattle.mft.specs.Boot.{boot_of, cluster_of, coded_bytes, has_form, is_boot, is_near, is_record_size, mft_boot};

use sector_fields::{DISTANCE_LIMIT, SECTOR, has_bytes, u16_le, u64_le};

/// The most sectors of a cluster whose code is their number.
const LARGEST_NUMBER: u8 = 128;

/// The most sectors of a cluster, 2 MiB.
const LARGEST_CLUSTER: u64 = 4096;

/// What a boot sector says of where file records lie. A sector has 512 bytes.
#[derive(Clone, Copy, PartialEq, Eq)]
pub struct MftBoot {
    /// The sectors of a cluster.
    pub cluster: u64,
    /// The cluster at which the table of the records begins.
    pub mft: u64,
    /// The cluster at which the mirror of its first records begins.
    pub mirror: u64,
    /// The bytes of a record, 1,024 or 4,096.
    pub bytes: u32,
}

/// The fields of a boot sector. None where the sector is none: another OEM identifier or end marker; sectors of another size
/// than 512 bytes; clusters that are no power of two from 1 to 4,096 sectors; records that have neither 1,024 nor 4,096
/// bytes; or a table or a mirror that begins at sector 2^55 or later.
#[tactic(auto, unfolding(crate::specs::Boot::mft_boot, crate::specs::Boot::is_boot))]
pub fn read_boot(sector: &[u8; SECTOR]) -> Option<MftBoot>
    ensures boot { result ≡ mft_boot sector.now }
    ensures near { IfSome result (λ b. IsTrue (is_near b)) }
{
    let boot = boot_of(sector);
    if has_form(sector) && is_near(&boot) {
        Some(boot)
    } else {
        None
    }
}

/// Whether the sector has the OEM identifier, the end marker and the size of sectors of a boot sector.
#[tactic(auto, unfolding(crate::specs::Boot::has_form))]
fn has_form(sector: &[u8; SECTOR]) -> bool
    ensures { result ≡ has_form sector.now }
{
    has_bytes(sector, 3, b"NTFS    ")
        && has_bytes(sector, 510, &[0x55, 0xAA])
        && u16_le(sector, 11) == SECTOR as u16
}

/// The fields of a boot sector, by their places in the sector.
#[tactic(auto, unfolding(crate::specs::Boot::boot_of))]
fn boot_of(sector: &[u8; SECTOR]) -> MftBoot
    ensures { result ≡ boot_of sector.now }
{
    let cluster = cluster_of(sector[13]);
    MftBoot {
        cluster: cluster as u64,
        mft: u64_le(sector, 48),
        mirror: u64_le(sector, 56),
        bytes: coded_bytes(sector[64], cluster),
    }
}

/// The sectors of a cluster by their code: 0 where it is the code of no size.
#[tactic(auto, unfolding(crate::specs::Boot::cluster_of))]
fn cluster_of(code: u8) -> u32
    ensures cluster { result ≡ cluster_of code }
    ensures few { result ≤ 4096 }
{
    if code.is_power_of_two() && code <= LARGEST_NUMBER {
        return code as u32;
    }
    match code {
        248 => 256,
        247 => 512,
        246 => 1024,
        245 => 2048,
        244 => 4096,
        _ => 0,
    }
}

/// The bytes of a file record by their code and the sectors of a cluster: 0 where it is the code of no size.
#[tactic(auto, unfolding(crate::specs::Boot::coded_bytes))]
fn coded_bytes(code: u8, cluster: u32) -> u32
    requires { cluster ≤ 4096 }
    ensures { result ≡ coded_bytes code cluster }
{
    match code {
        246 => 1024,
        244 => 4096,
        _ if code < 128 => code as u32 * cluster * SECTOR as u32,
        _ => 0,
    }
}

/// Whether clusters have sectors, records have one of the two sizes, and the table and its mirror begin below 2^55.
#[tactic(auto, unfolding(crate::specs::Boot::is_near))]
pub fn is_near(boot: &MftBoot) -> bool
    ensures { result ≡ is_near boot.now }
{
    let limit = DISTANCE_LIMIT as u128;
    1 <= boot.cluster
        && boot.cluster <= LARGEST_CLUSTER
        && is_record_size(boot.bytes)
        && (boot.mft as u128 * boot.cluster as u128) < limit
        && (boot.mirror as u128 * boot.cluster as u128) < limit
}

/// Whether records may have so many bytes.
#[tactic(auto, unfolding(crate::specs::Boot::is_record_size))]
pub fn is_record_size(bytes: u32) -> bool
    ensures { result ≡ is_record_size bytes }
{
    bytes == 1024 || bytes == 4096
}

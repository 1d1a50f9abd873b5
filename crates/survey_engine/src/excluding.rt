//! The law that a sector is by its front of one kind of landmark sectors at most.
ghost use Rattle.survey_engine.specs.Exclusion.{KindsExcludeEachOther};

/// No sector is of two of these kinds: GPT header, NTFS boot sector, NTFS file record, XFS superblock, AGF, AGI,
/// LVM2 label.
/// It runs nothing: its contract is the law.
#[tactic(auto, using(crate::proofs::FourthByte::at_most_one))]
pub fn no_sector_is_of_two_kinds()
    ensures { KindsExcludeEachOther }
{}

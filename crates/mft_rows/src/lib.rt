//! Tests of the readers of NTFS: a boot sector and the record 0 that `mkntfs` and `ntfscp` wrote, with the run that `ntfsinfo`
//! prints, runs by hand, and tables in many runs of volumes that were used.
#![tactic(auto)]

#[cfg(test)]
mod fragmented;
#[cfg(test)]
mod tables;

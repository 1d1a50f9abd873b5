//! Tests that run the whole program over objects in memory.
//!
//! A run has its words as one line, images and a plan, and a status, an output and a note that were worked out by hand.
//! `listings`, `checks`, `classes`, `landmarks`, `samples`, `surveys`, `volumes`, `bases`, `marked_bases`, `mirrors`,
//! `mirror_searches`, `salvages`, `related`, `texts` and `many_images` have answers, `refusals`, `refused_words` and `long_images` what
//! is refused, and `defaults` operands that are not given. `failing` has each call of each object made to fail in turn, `cut` plans
//! whose end is missing, and `plan_limits`, `sector_limits`, `image_limits` and `long_texts` what stands at both sides of each limit.
//! `served` has runs of `reraid-nbd`, and what its client is answered. In `side_by_side` pieces of a scan wait for each other. `paged`
//! has pages by the call that `reraid_cli` hands on. That objects are ready for a run stands in `specs/Ready`.
#![tactic(auto)]

#[cfg(test)]
mod bases;
#[cfg(test)]
mod checks;
#[cfg(test)]
mod classes;
#[cfg(test)]
mod cut;
#[cfg(test)]
mod defaults;
#[cfg(test)]
mod failing;
#[cfg(test)]
mod image_limits;
#[cfg(test)]
mod landmarks;
#[cfg(test)]
mod listings;
#[cfg(test)]
mod long_images;
#[cfg(test)]
mod long_texts;
#[cfg(test)]
mod many_images;
#[cfg(test)]
mod mapped;
#[cfg(test)]
mod marked_bases;
#[cfg(test)]
mod mirror_searches;
#[cfg(test)]
mod mirrors;
#[cfg(test)]
mod objects;
#[cfg(test)]
mod paged;
#[cfg(test)]
mod pieces;
#[cfg(test)]
mod placed;
#[cfg(test)]
mod plan_limits;
#[cfg(test)]
mod plans;
#[cfg(test)]
mod refusals;
#[cfg(test)]
mod refused_words;
#[cfg(test)]
mod related;
#[cfg(test)]
mod rows;
#[cfg(test)]
mod salvages;
#[cfg(test)]
mod samples;
#[cfg(test)]
mod sector_limits;
#[cfg(test)]
mod served;
#[cfg(test)]
mod side_by_side;
#[cfg(test)]
mod surveys;
#[cfg(test)]
mod texts;
#[cfg(test)]
mod volumes;

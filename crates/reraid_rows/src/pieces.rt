//! A source that gives few bytes at a time.
ghost use Rattle.std.specs.Prelude.{◌≡◌, Some};
ghost use Rattle.image_source.specs.Memory.{Tape};

use image_source::MemSource;
use outside::{Failed, Source};
use std::marker::Model;

/// A source in memory that gives at most a fixed number of bytes at once, and at least one.
#[derive(Drop)]
pub struct Pieces {
    source: MemSource,
    /// The most bytes at once. Zero is taken for one.
    most: usize,
}

impl Model for Pieces {
    ghost use Rattle.image_source.specs.Memory.{Tape};

    ghost Value = { Tape };

    ghost view = { λ p. p.source };
}

impl Pieces {
    /// What is left of the source, with at most `most` bytes at once.
    pub fn of(source: MemSource, most: usize) -> Pieces
        ensures { result ≡ source }
    {
        Pieces { source, most }
    }
}

impl Source for Pieces {
    ghost left = { λ p. Some p.left };

    ghost faults = { λ p. p.faults };

    fn take(&mut self, to: &mut [u8]) -> Result<usize, Failed> {
        let most = to.len().min(self.most.max(1));
        self.source.take(&mut to[..most])
    }
}

//! Where a dialogue stands.
ghost use Rattle.std.specs.Prelude.{◌≡◌};
ghost use Rattle.nbd_text.specs.Dialogue.{is_open};

/// Where a dialogue stands: which message comes next, or how it ended.
#[derive(Clone, Copy, Debug, PartialEq, Eq)]
pub enum Phase {
    /// The client's flags come next.
    Flags,
    /// An option comes next. The client wants the zeros after a reply to `EXPORT_NAME` left out where this is true.
    Options(bool),
    /// A request comes next.
    Requests,
    /// The client ended it.
    Closed,
    /// The client sent what the protocol does not allow.
    Malformed,
}

impl Phase {
    /// Whether a dialogue goes on from here.
    pub fn is_open(&self) -> bool
        ensures { result ≡ is_open self.now }
    {
        !matches!(self, Phase::Closed | Phase::Malformed)
    }
}

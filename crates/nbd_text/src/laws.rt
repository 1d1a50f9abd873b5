//! The law of the protocol's numbers. The function does nothing: its clause is the law.
ghost use Rattle.nbd_text.specs.Numbers.{AreTheProtocols};

/// The numbers of `numbers` are those of the protocol.
pub fn numbers_are_the_protocols()
    ensures { AreTheProtocols }
{}

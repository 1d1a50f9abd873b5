//! The equations that a row is tested by.

/// An equation of the parity of a row.
#[derive(Clone, Copy)]
pub enum Equation {
    /// P's.
    OfP,
    /// Q's.
    OfQ,
    /// The sum of Q's and of P's times 2 to this power, which needs no data block of this exponent.
    QByP(u8),
}

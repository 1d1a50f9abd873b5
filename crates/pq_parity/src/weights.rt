//! By which weights the sums of what is known give a lost byte.
ghost use Rattle.std.specs.Prelude.{◌≡◌, ◌≢◌, ◌<◌};
ghost use Rattle.row_parity.specs.LostBytes.{Apart, Finds};

use raid_params::Part;

/// A lost byte is `p` times the sum of P's equation plus `q` times that of Q's, in the field.
#[derive(Clone, Copy)]
pub struct Weights {
    /// The weight of the sum of P's equation.
    pub p: u8,
    /// The weight of the sum of Q's equation.
    pub q: u8,
}

/// The sum of P's equation is the lost byte itself.
const BY_P: Weights = Weights { p: 1, q: 0 };

/// The sum of Q's equation is the lost byte itself.
const BY_Q: Weights = Weights { p: 0, q: 1 };

/// The weights for a lost byte of this part, where another one is missing too or none is.
pub fn weights_of(part: Part, other: Option<Part>) -> Weights
    requires { Apart part other }
    ensures { Finds part other result.p result.q }
{
    match part {
        Part::P => weights_of_p(other),
        Part::Q => weights_of_q(other),
        Part::Block(k) => weights_of_data(k, other),
    }
}

/// The weights for a lost byte of P.
#[tactic(auto, using(crate::proofs::Pairs::finds_p, crate::proofs::Pairs::finds_p_beside_q, crate::proofs::Pairs::finds_p_beside_data, gf256::proofs::Powers::not_zero))]
fn weights_of_p(other: Option<Part>) -> Weights
    requires { Apart Part.P other }
    ensures { Finds Part.P other result.p result.q }
{
    match other {
        Some(Part::Block(k)) => Weights {
            p: 1,
            q: gf256::inverse(gf256::power(k)),
        },
        None | Some(Part::P | Part::Q) => BY_P,
    }
}

/// The weights for a lost byte of Q.
#[tactic(auto, using(crate::proofs::Pairs::finds_q, crate::proofs::Pairs::finds_q_beside_p, crate::proofs::Pairs::finds_q_beside_data))]
fn weights_of_q(other: Option<Part>) -> Weights
    requires { Apart Part.Q other }
    ensures { Finds Part.Q other result.p result.q }
{
    match other {
        Some(Part::Block(k)) => Weights {
            p: gf256::power(k),
            q: 1,
        },
        None | Some(Part::P | Part::Q) => BY_Q,
    }
}

/// The weights for a lost data byte with exponent `k`.
#[tactic(auto, using(crate::proofs::Pairs::finds_data, crate::proofs::Pairs::finds_data_beside_q, crate::proofs::Pairs::finds_data_beside_p, gf256::proofs::Powers::not_zero))]
fn weights_of_data(k: u8, other: Option<Part>) -> Weights
    requires { Apart (Part.Block k) other }
    ensures { Finds (Part.Block k) other result.p result.q }
{
    match other {
        Some(Part::P) => Weights {
            p: 0,
            q: gf256::inverse(gf256::power(k)),
        },
        Some(Part::Block(j)) => weights_of_two(k, j),
        Some(Part::Q) => BY_P,
        None => BY_P,
    }
}

/// The weights for a data byte with exponent `i`, where that with exponent `j` is missing too.
#[tactic(auto, using(crate::proofs::Pairs::finds_data_beside_data, gf256::proofs::Powers::sum_not_zero))]
fn weights_of_two(i: u8, j: u8) -> Weights
    requires { (i < 255) × (j < 255) × (i ≢ j) }
    ensures { Finds (Part.Block i) (Some (Part.Block j)) result.p result.q }
{
    let q = gf256::inverse(gf256::add(gf256::power(i), gf256::power(j)));
    Weights {
        p: gf256::mul(gf256::power(j), q),
        q,
    }
}

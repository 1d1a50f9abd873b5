//! The laws of the field. Each function here does nothing: its clauses are the laws, and a proof of another crate may
//! cite `Rattle.gf256.proofs`' modules `Sums`, `Products`, `Doubling`, `Powers` and `Undoing`, where they are proved.

ghost use Rattle.std.specs.Prelude.{ℕ, ◌≡◌, ◌≢◌, ◌<◌, ◌+◌, ◌/◌, ◌^◌, bit_xor};
ghost use Rattle.gf256.specs.Field.{double, if_odd, product, power_of};

/// Bytes under the sum are a group in which each byte is its own negative.
#[tactic(auto, using(crate::proofs::Sums::sum_fits, crate::proofs::Sums::sum_associates, crate::proofs::Sums::sum_commutes, crate::proofs::Sums::sum_zero, crate::proofs::Sums::sum_self, crate::proofs::Sums::equal_from_sum, crate::proofs::Sums::moved))]
pub fn sums()
    ensures within { (a b : ℕ) → a < 2 ^ 8 → b < 2 ^ 8 → bit_xor a b < 2 ^ 8 }
    ensures associative { (a b c : ℕ) → bit_xor (bit_xor a b) c ≡ bit_xor a (bit_xor b c) }
    ensures commutative { (a b : ℕ) → bit_xor a b ≡ bit_xor b a }
    ensures zero { (a : ℕ) → bit_xor a 0 ≡ a }
    ensures own_negative { (a : ℕ) → bit_xor a a ≡ 0 }
    ensures equal { (a b : ℕ) → bit_xor a b ≡ 0 → a ≡ b }
    ensures moved { (a b c : ℕ) → bit_xor a b ≡ c → a ≡ bit_xor c b }
{}

/// The two equations that define the product: by 0, and by halving the second factor.
#[tactic(auto, using(crate::proofs::Products::product_zero, crate::proofs::Products::product_halved))]
pub fn definition_of_product()
    ensures at_zero { (a : ℕ) → product a 0 ≡ 0 }
    ensures by_halves { (a b : ℕ) → b < 2 ^ 8 →
        product a b ≡ bit_xor (double (product a (b / 2))) (if_odd b a) }
{}

/// The product is additive in each factor, associative and commutative, and 1 changes nothing.
#[tactic(auto, using(crate::proofs::Products::product_fits, crate::proofs::Products::additive_left, crate::proofs::Products::additive_right, crate::proofs::Products::associates, crate::proofs::Powers::commutes, crate::proofs::Powers::product_one, crate::proofs::Products::product_zero_left))]
pub fn products()
    ensures within { (a b : ℕ) → a < 2 ^ 8 → product a b < 2 ^ 8 }
    ensures additive_left { (a b c : ℕ) → a < 2 ^ 8 → b < 2 ^ 8 →
        product (bit_xor a b) c ≡ bit_xor (product a c) (product b c) }
    ensures additive_right { (a b c : ℕ) → a < 2 ^ 8 →
        product a (bit_xor b c) ≡ bit_xor (product a b) (product a c) }
    ensures associative { (a b c : ℕ) → a < 2 ^ 8 → b < 2 ^ 8 →
        product (product a b) c ≡ product a (product b c) }
    ensures commutative { (a b : ℕ) → a < 2 ^ 8 → b < 2 ^ 8 → product a b ≡ product b a }
    ensures one { (a : ℕ) → a < 2 ^ 8 → product a 1 ≡ a }
    ensures zero { (b : ℕ) → product 0 b ≡ 0 }
{}

/// Doubling is multiplying by 2: it is additive, and doubling a factor doubles the product.
#[tactic(auto, using(crate::proofs::Doubling::by_two, crate::proofs::Doubling::sum_doubles, crate::proofs::Doubling::left_doubles, crate::proofs::Doubling::right_doubles))]
pub fn doubling()
    ensures by_two { (a : ℕ) → a < 2 ^ 8 → double a ≡ product 2 a }
    ensures of_sum { (a b : ℕ) → a < 2 ^ 8 → b < 2 ^ 8 → double (bit_xor a b) ≡ bit_xor (double a) (double b) }
    ensures of_left { (a b : ℕ) → a < 2 ^ 8 → b < 2 ^ 8 → product (double a) b ≡ double (product a b) }
    ensures of_right { (a b : ℕ) → a < 2 ^ 8 → b < 2 ^ 8 → product a (double b) ≡ double (product a b) }
{}

/// Multiplying by a byte that is not 0 can be undone: it has an inverse, and no two products by it are equal.
#[tactic(auto, using(crate::proofs::Undoing::has_inverse, crate::proofs::Undoing::cancels, crate::proofs::Undoing::no_divisor))]
pub fn undoing()
    ensures inverse { (a : ℕ) → a < 2 ^ 8 → a ≢ 0 → (x : ℕ) × (x < 2 ^ 8) × (product a x ≡ 1) }
    ensures cancel { (a b c : ℕ) → a < 2 ^ 8 → b < 2 ^ 8 → c < 2 ^ 8 →
        product a b ≡ product a c → a ≢ 0 → b ≡ c }
    ensures no_zero_divisor { (a b : ℕ) → a < 2 ^ 8 → b < 2 ^ 8 → product a b ≡ 0 → a ≢ 0 → b ≡ 0 }
{}

/// The powers of 2 begin at 1 and double. In a product their exponents add, and they repeat after 255. They are all
/// bytes but 0, each once, so two of them with different exponents below 255 have a sum that is not 0.
#[tactic(auto, using(crate::proofs::Powers::first, crate::proofs::Powers::next, crate::proofs::Powers::powers_add, crate::proofs::Powers::period, crate::proofs::Powers::power_fits, crate::proofs::Powers::not_zero, crate::proofs::Powers::distinct, crate::proofs::Powers::sum_not_zero, crate::proofs::Powers::is_power))]
pub fn powers()
    ensures first { power_of 0 ≡ 1 }
    ensures next { (k : ℕ) → power_of (k + 1) ≡ double (power_of k) }
    ensures add { (i j : ℕ) → power_of (i + j) ≡ product (power_of i) (power_of j) }
    ensures period { (k : ℕ) → power_of (k + 255) ≡ power_of k }
    ensures distinct { (i j : ℕ) → i < 255 → j < 255 → power_of i ≡ power_of j → i ≡ j }
    ensures sums { (i j : ℕ) → i < 255 → j < 255 → i ≢ j → bit_xor (power_of i) (power_of j) ≢ 0 }
    ensures within { (k : ℕ) → power_of k < 2 ^ 8 }
    ensures not_zero { (k : ℕ) → power_of k ≢ 0 }
    ensures all { (a : ℕ) → a < 2 ^ 8 → a ≢ 0 → (k : ℕ) × (k < 255) × (power_of k ≡ a) }
{}

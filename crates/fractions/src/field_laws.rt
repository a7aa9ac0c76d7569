//! The laws that crates above rest on, each a clause of a function that does nothing.
//!
//! Proofs above cite the same laws as lemmas, under these names:
//!
//! - `Rattle.fractions.proofs.Laws`: the commutative ring and the inverse (`+ʳ_comm`, `+ʳ_assoc`, `*ʳ-+ʳ`, `*ʳ-inverse`,
//!   `/ʳ-*ʳ`, `*ʳ_cancel` and more).
//! - `Rattle.fractions.proofs.Order`: the order and how sums, products and negation keep it (`≤ʳ_trans`, `+ʳ-≤ʳ`,
//!   `*ʳ-≤ʳ`, `le_from_difference` and more).
//! - `Rattle.fractions.proofs.Bounds`: sizes under which no result is wide; `proofs.Common`: the least common denominator.
//! - `Rattle.fractions.specs.Fracs.same_amount` proves an equation between sums and products by `omega arith`, and
//!   `Rattle.fractions.proofs.Normal.same_result` one of any size by `refl`.
ghost use Rattle.std.specs.Prelude.{◌≡◌, ◌≢◌, ℕ, List, ◌⊎◌};
ghost use Rattle.std.specs.Int.{◌∣◌};
ghost use Rattle.fractions.specs.Fraction.{Fraction, frac, zero_fraction, one_fraction, negated, inverse, ◌+ʳ◌, ◌-ʳ◌, ◌*ʳ◌, ◌/ʳ◌, ◌≤ʳ◌, ◌<ʳ◌};
ghost use Rattle.fractions.specs.Limits.{IsBelow, IsNarrow, SumFits, DifferenceFits, lcm, num_over};
ghost use Rattle.fractions.specs.Numeral.{Numeral, Writes, magnitude, limit, IsShort};
ghost use Rattle.fractions.specs.Quotient.{Quotient, WritesQuotient};

/// Fractions are a commutative ring.
pub fn ring()
    ensures sum_comm { (x y : Fraction) → x +ʳ y ≡ y +ʳ x }
    ensures sum_assoc { (x y z : Fraction) → x +ʳ y +ʳ z ≡ x +ʳ (y +ʳ z) }
    ensures sum_zero { (x : Fraction) → x +ʳ zero_fraction ≡ x }
    ensures sum_opposite { (x : Fraction) → x +ʳ negated x ≡ zero_fraction }
    ensures product_comm { (x y : Fraction) → x *ʳ y ≡ y *ʳ x }
    ensures product_assoc { (x y z : Fraction) → x *ʳ y *ʳ z ≡ x *ʳ (y *ʳ z) }
    ensures product_one { (x : Fraction) → x *ʳ one_fraction ≡ x }
    ensures product_sum { (x y z : Fraction) → x *ʳ (y +ʳ z) ≡ x *ʳ y +ʳ x *ʳ z }
{}

/// Each fraction other than 0 has an inverse, and dividing undoes multiplying.
pub fn inverses()
    ensures one { one_fraction ≢ zero_fraction }
    ensures inverse { (x : Fraction) → x ≢ zero_fraction → x *ʳ inverse x ≡ one_fraction }
    ensures quotient { (x y : Fraction) → y ≢ zero_fraction → x /ʳ y *ʳ y ≡ x }
    ensures cancel { (x y k : Fraction) → k ≢ zero_fraction → x *ʳ k ≡ y *ʳ k → x ≡ y }
{}

/// The order is total.
pub fn order()
    ensures total { (x y : Fraction) → (x ≤ʳ y) ⊎ (y <ʳ x) }
    ensures strict { (x y : Fraction) → x <ʳ y → ¬ (y ≤ʳ x) }
    ensures refl { (x : Fraction) → x ≤ʳ x }
    ensures antisymm { (x y : Fraction) → x ≤ʳ y → y ≤ʳ x → x ≡ y }
    ensures trans { (x y z : Fraction) → x ≤ʳ y → y ≤ʳ z → x ≤ʳ z }
{}

/// Sums, and products with what is not negative, keep the order; negation turns it.
pub fn monotonicity()
    ensures sum { (x y a b : Fraction) → x ≤ʳ y → a ≤ʳ b → (x +ʳ a) ≤ʳ (y +ʳ b) }
    ensures strict_sum { (x y a b : Fraction) → x <ʳ y → a ≤ʳ b → (x +ʳ a) <ʳ (y +ʳ b) }
    ensures product { (x y k : Fraction) → zero_fraction ≤ʳ k → x ≤ʳ y → (x *ʳ k) ≤ʳ (y *ʳ k) }
    ensures strict_product { (x y k : Fraction) → zero_fraction <ʳ k → x <ʳ y → (x *ʳ k) <ʳ (y *ʳ k) }
    ensures negated { (x y : Fraction) → x ≤ʳ y → negated y ≤ʳ negated x }
{}

/// The least common denominator, over which `add` and `sub` write both operands, is one, and is least.
pub fn common_denominator()
    ensures first { (x y : Fraction) → x.den ∣ lcm x.den y.den }
    ensures second { (x y : Fraction) → y.den ∣ lcm x.den y.den }
    ensures least { (x y : Fraction) (d : ℕ) → x.den ∣ d → y.den ∣ d → lcm x.den y.den ∣ d }
    ensures numerator { (x y : Fraction) → frac (num_over x (lcm x.den y.den)) (lcm x.den y.den) ≡ x }
{}

/// `add` and `sub` are never wide where all parts are below 2^62.
pub fn sums_of_small_parts()
    ensures sum { (x y : Fraction) → IsBelow 62 x → IsBelow 62 y → SumFits x y }
    ensures difference { (x y : Fraction) → IsBelow 62 x → IsBelow 62 y → DifferenceFits x y }
{}

/// `sub_mul` is never wide where all parts are below 2^42.
pub fn updates_of_small_parts()
    ensures product { (t u v : Fraction) → IsBelow 42 t → IsBelow 42 u → IsBelow 42 v → IsNarrow (u *ʳ v) }
    ensures difference { (t u v : Fraction) → IsBelow 42 t → IsBelow 42 u → IsBelow 42 v → DifferenceFits t (u *ʳ v) }
{}

/// A text writes at most one numeral or quotient, and not both. The value of a numeral has few digits.
pub fn readings()
    ensures numeral { (text : List ℕ) (m n : Numeral) → Writes text m → Writes text n → m ≡ n }
    ensures quotient { (text : List ℕ) (p q : Quotient) → WritesQuotient text p → WritesQuotient text q → p ≡ q }
    ensures apart { (text : List ℕ) (n : Numeral) (q : Quotient) → Writes text n → ¬ WritesQuotient text q }
    ensures short { (text : List ℕ) (n : Numeral) → Writes text n → magnitude n <ʳ limit → IsShort (magnitude n) }
{}

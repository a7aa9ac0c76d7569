//! Numbers of a prototype: amounts, whole numbers, energies and powers, by their fields.
ghost use Rattle.std.specs.Prelude.{◌≡◌, IfOk, IfSome};
ghost use Rattle.json_text.specs.SpanSeen.{span_seen};
ghost use Rattle.fractions.specs.Limits.{IsBelow};
ghost use Rattle.energy_units.specs.declared.Measure.TheVariants.{Joules, Watts};
ghost use Rattle.prototype_fields.specs.Seen.{object_seen};
ghost use Rattle.prototype_fields.specs.Values.{amount, amount_in, amount_or, energy_in, energy_or, hundredths_or_zero, number, number_in, number_or, positive, positive_in, positive_or, power, required_amount, required_positive, required_power, text, whole_or};

use crate::fields::Fields;
use crate::numbers::{energy, hundredths, is_amount, numeral, small_whole};
use crate::trees::{as_bytes, as_number};
use crate::{FieldCode, FieldFault, Key};
use energy_units::Measure;
use fractions::{NumeralFault, Ratio, is_positive};
use json_text::SpanTree;

impl<'t, 'b> Fields<'t, 'b> {
    // A number of any sign.
    #[tactic(auto, unfolding(crate::specs::Values::number_in))]
    fn number_in(&self, key: Key, value: &'t SpanTree<'b>) -> Result<Ratio, FieldFault>
        ensures value { result ≡ number_in (object_seen self.now) key (span_seen value.now) }
        ensures small { IfOk result (IsBelow 120) }
    {
        let Some(digits) = as_number(value) else {
            return Err(self.fault(FieldCode::WrongKind, key));
        };
        match numeral(digits) {
            Ok(number) => Ok(number),
            Err(NumeralFault::TooLarge) => Err(self.fault(FieldCode::Number, key)),
            Err(NumeralFault::NotNumeral) => Err(self.fault(FieldCode::WrongKind, key)),
        }
    }

    // An energy or a power.
    #[tactic(auto, unfolding(crate::specs::Values::energy_in))]
    fn energy_in(
        &self,
        measure: Measure,
        key: Key,
        value: &'t SpanTree<'b>,
    ) -> Result<Ratio, FieldFault>
        ensures value { result ≡ energy_in measure (object_seen self.now) key (span_seen value.now) }
        ensures small { IfOk result (IsBelow 120) }
    {
        let Some(text) = as_bytes(value) else {
            return Err(self.fault(FieldCode::WrongKind, key));
        };
        match energy(measure, text) {
            Ok(number) => Ok(number),
            Err(_) => Err(self.fault(FieldCode::Energy, key)),
        }
    }

    /// A number of any sign, which may be absent.
    #[tactic(auto, unfolding(crate::specs::Values::number))]
    pub fn number(&self, key: Key) -> Result<Option<Ratio>, FieldFault>
        ensures value { result ≡ number (object_seen self.now) key }
        ensures small { IfOk result (λ found. IfSome found (IsBelow 120)) }
    {
        match self.field(key) {
            Some(value) => Ok(Some(self.number_in(key, value)?)),
            None => Ok(None),
        }
    }

    /// A number of any sign with a default.
    #[tactic(auto, unfolding(crate::specs::Values::number_or))]
    pub fn number_or(&self, key: Key, default: Ratio) -> Result<Ratio, FieldFault>
        ensures { result ≡ number_or (object_seen self.now) key default }
    {
        Ok(self.number(key)?.unwrap_or(default))
    }

    // A number of at least 0.
    fn amount_in(&self, key: Key, value: &'t SpanTree<'b>) -> Result<Ratio, FieldFault>
        ensures value { result ≡ amount_in (object_seen self.now) key (span_seen value.now) }
        ensures small { IfOk result (IsBelow 120) }
    {
        let number = self.number_in(key, value)?;
        if is_amount(&number) {
            Ok(number)
        } else {
            Err(self.fault(FieldCode::Limit, key))
        }
    }

    /// A number of at least 0, which may be absent.
    #[tactic(auto, unfolding(crate::specs::Values::amount))]
    pub fn amount(&self, key: Key) -> Result<Option<Ratio>, FieldFault>
        ensures value { result ≡ amount (object_seen self.now) key }
        ensures small { IfOk result (λ found. IfSome found (IsBelow 120)) }
    {
        match self.field(key) {
            Some(value) => Ok(Some(self.amount_in(key, value)?)),
            None => Ok(None),
        }
    }

    /// A number of at least 0 that is required.
    #[tactic(auto, unfolding(crate::specs::Values::required_amount))]
    pub fn required_amount(&self, key: Key) -> Result<Ratio, FieldFault>
        ensures { result ≡ required_amount (object_seen self.now) key }
    {
        match self.amount(key)? {
            Some(number) => Ok(number),
            None => Err(self.fault(FieldCode::Missing, key)),
        }
    }

    /// A number of at least 0 with a default.
    #[tactic(auto, unfolding(crate::specs::Values::amount_or))]
    pub fn amount_or(&self, key: Key, default: Ratio) -> Result<Ratio, FieldFault>
        ensures { result ≡ amount_or (object_seen self.now) key default }
    {
        Ok(self.amount(key)?.unwrap_or(default))
    }

    // A number above 0.
    fn positive_in(&self, key: Key, value: &'t SpanTree<'b>) -> Result<Ratio, FieldFault>
        ensures { result ≡ positive_in (object_seen self.now) key (span_seen value.now) }
    {
        let number = self.number_in(key, value)?;
        if is_positive(&number) {
            Ok(number)
        } else {
            Err(self.fault(FieldCode::Limit, key))
        }
    }

    /// A number above 0, which may be absent.
    #[tactic(auto, unfolding(crate::specs::Values::positive))]
    pub fn positive(&self, key: Key) -> Result<Option<Ratio>, FieldFault>
        ensures { result ≡ positive (object_seen self.now) key }
    {
        match self.field(key) {
            Some(value) => Ok(Some(self.positive_in(key, value)?)),
            None => Ok(None),
        }
    }

    /// A number above 0 that is required.
    #[tactic(auto, unfolding(crate::specs::Values::required_positive))]
    pub fn required_positive(&self, key: Key) -> Result<Ratio, FieldFault>
        ensures { result ≡ required_positive (object_seen self.now) key }
    {
        match self.positive(key)? {
            Some(number) => Ok(number),
            None => Err(self.fault(FieldCode::Missing, key)),
        }
    }

    /// A number above 0 with a default.
    #[tactic(auto, unfolding(crate::specs::Values::positive_or))]
    pub fn positive_or(&self, key: Key, default: Ratio) -> Result<Ratio, FieldFault>
        ensures { result ≡ positive_or (object_seen self.now) key default }
    {
        Ok(self.positive(key)?.unwrap_or(default))
    }

    /// A whole number of at most 65,535, with a default.
    #[tactic(auto, unfolding(crate::specs::Values::whole_or))]
    pub fn whole_or(&self, key: Key, default: u32) -> Result<u32, FieldFault>
        ensures { result ≡ whole_or (object_seen self.now) key default }
    {
        let Some(value) = self.field(key) else {
            return Ok(default);
        };
        let number = self.number_in(key, value)?;
        match small_whole(&number) {
            Some(whole) => Ok(whole),
            None => Err(self.fault(FieldCode::Limit, key)),
        }
    }

    /// A number of any sign, of magnitude at most 1,000,000, in hundredths and cut toward zero; 0 where it is absent.
    #[tactic(auto, unfolding(crate::specs::Values::hundredths_or_zero))]
    pub fn hundredths_or_zero(&self, key: Key) -> Result<i64, FieldFault>
        ensures { result ≡ hundredths_or_zero (object_seen self.now) key }
    {
        let Some(value) = self.field(key) else {
            return Ok(0);
        };
        let number = self.number_in(key, value)?;
        match hundredths(&number) {
            Some(found) => Ok(found),
            None => Err(self.fault(FieldCode::Limit, key)),
        }
    }

    /// An energy in joules, with a default.
    #[tactic(auto, unfolding(crate::specs::Values::energy_or))]
    pub fn energy_or(&self, key: Key, default: Ratio) -> Result<Ratio, FieldFault>
        ensures { result ≡ energy_or (object_seen self.now) key default }
    {
        match self.field(key) {
            Some(value) => self.energy_in(Measure::Joules, key, value),
            None => Ok(default),
        }
    }

    /// A power in watts, which may be absent.
    #[tactic(auto, unfolding(crate::specs::Values::power))]
    pub fn power(&self, key: Key) -> Result<Option<Ratio>, FieldFault>
        ensures value { result ≡ power (object_seen self.now) key }
        ensures small { IfOk result (λ found. IfSome found (IsBelow 120)) }
    {
        match self.field(key) {
            Some(value) => Ok(Some(self.energy_in(Measure::Watts, key, value)?)),
            None => Ok(None),
        }
    }

    /// A power in watts that is required.
    #[tactic(auto, unfolding(crate::specs::Values::required_power))]
    pub fn required_power(&self, key: Key) -> Result<Ratio, FieldFault>
        ensures value { result ≡ required_power (object_seen self.now) key }
        ensures small { IfOk result (IsBelow 120) }
    {
        match self.power(key)? {
            Some(number) => Ok(number),
            None => Err(self.fault(FieldCode::Missing, key)),
        }
    }
}

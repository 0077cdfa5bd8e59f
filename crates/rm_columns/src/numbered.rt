// Columns of numbers that stand for variants.
ghost use Rattle.std.specs.Prelude.{◌≡◌, ◌∷◌, pos, find, nat_eq};
ghost use Rattle.std.specs.Option.{option_copied};
ghost use Rattle.rm_val.specs.Val.{val_of};
ghost use Rattle.rm_columns.specs.Numbering.{Numbering, variant};
ghost use Rattle.rm_columns.specs.Values.{natural_in};

use crate::values::natural_in;
use rm_val::Value;

/// A type of variants, each of which has a number, in which a column of these numbers is kept.
pub trait Numbered: Copy + 'static {
    /// The variants and their numbers.
    ghost numbering: { Numbering Self };

    /// The variants. The first one is the default of the column.
    fn variants() -> &'static [Self]
        ensures { result.now ≡ numbering.first ∷ numbering.others };

    /// The number of the variant.
    fn number(self) -> i32
        ensures { result ≡ pos (numbering.number_of self) };

    /// The variant that a number stands for. It is the default of the column for every number that is no variant's.
    final fn numbered(number: u32) -> Self
        ensures { result ≡ variant numbering number }
    {
        let variants = Self::variants();
        match with_number(variants, number) {
            Some(found) => *found,
            None => variants[0],
        }
    }

    /// The variant that a value stands for.
    final fn given(value: &Value<'_>) -> Self
        ensures { result ≡ variant numbering (natural_in (val_of value.now)) }
    {
        Self::numbered(natural_in(value))
    }
}

// The first of some variants with a number.
fn with_number<E: Numbered>(variants: &[E], number: u32) -> Option<&E>
    ensures { option_copied result ≡ find (λ one. nat_eq (E.numbering.number_of one) number) variants.now }
{
    variants.iter().find(|one| has_number(**one, number))
}

// Whether a variant has a number.
fn has_number<E: Numbered>(one: E, number: u32) -> bool
    ensures { result ≡ nat_eq (E.numbering.number_of one) number }
{
    i64::from(one.number()) == i64::from(number)
}

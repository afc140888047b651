//! The laws of the order and the equality of values, of decimal texts and of plain JSON. Each is the contract of a
//! function that does nothing.

ghost use Rattle.ps_values.specs.Laws.{IsAntisymmetric, IsTransitive, IsTotal, TiesTheSame, IsEqualWherePresent, ReadsWhatIsWritten, HasNoFloatWherePlain};

/// A law: `compare` is a total order, in which only values that are the same are tied.
pub fn compare_is_a_total_order()
    ensures antisymmetric { IsAntisymmetric }
    ensures transitive { IsTransitive }
    ensures total { IsTotal }
    ensures ties { TiesTheSame }
{}

/// A law: two values are equal in SQL exactly where neither is Null and they are the same.
pub fn equal_where_both_are_present()
    ensures { IsEqualWherePresent }
{}

/// A law: `read_decimal` reads of a text a number exactly where the text is what is written of that
/// number, which is at most 9223372036854775807.
pub fn decimals_read_back()
    ensures { ReadsWhatIsWritten }
{}

/// A law: plain JSON, in which each number is a whole number of signed 64 bits, has no float.
pub fn plain_json_has_no_float()
    ensures { HasNoFloatWherePlain }
{}

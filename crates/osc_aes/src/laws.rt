//! What follows from the standard's definitions alone, for anyone who builds on them.

ghost use Rattle.osc_aes.specs.Aes128.{BlockKeepsItsLength};
ghost use Rattle.osc_aes.specs.Field.{ElementsHaveInverses};

/// States that each element from 1 to 255 of the cipher's field has the inverse that the substitution box is made from
/// (FIPS 197, 4.2).
pub fn product_with_inverse()
    ensures { ElementsHaveInverses }
{}

/// States that an encrypted block has 16 bytes (FIPS 197, 3.1).
pub fn encrypted_length()
    ensures { BlockKeepsItsLength }
{}

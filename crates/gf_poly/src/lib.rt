//! Polynomials over GF(2), kept as numbers (bit i is the coefficient of x^i), and the laws of
//! GF(2)[x] modulo x^d + low. Both fields of AES-GCM are of this form: GF(2^8) with d = 8 and low =
//! 0x1b (FIPS 197), GF(2^128) with d = 128 and low = 0x87 (SP 800-38D).
//!
//! The crate has definitions and laws, and no code that runs: each function is a law, stated by its
//! contract.
//!
//! `specs/Poly.antt` has the definitions, `specs/Laws.antt` what the laws say.
#![tactic(auto)]

ghost use Rattle.gf_poly.specs.Laws.{HornerLaw, ProductsFit, RemaindersFit, RemaindersDivide, ProductsAssociate, ProductsCommute, ProductsDistribute, OneIsUnit};

/// The law of division: `remainder` leaves p less a multiple of x^d + low, and has fewer than d + 1
/// coefficients. So it is the remainder.
pub fn division_law()
    ensures divides { RemaindersDivide }
    ensures fits { RemaindersFit }
{}

/// The elements below 2^d, with `bit_xor` and `multiply`, are a commutative ring with the unit 1.
pub fn ring_law()
    ensures fits { ProductsFit }
    ensures associates { ProductsAssociate }
    ensures commutes { ProductsCommute }
    ensures distributes { ProductsDistribute }
    ensures unit { OneIsUnit }
{}

/// Horner's rule: one more term is added by one sum and one product.
pub fn horner_law()
    ensures { HornerLaw }
{}

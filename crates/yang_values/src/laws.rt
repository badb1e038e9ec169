// What is written is read again.
ghost use Rattle.std.specs.Prelude.{◌≡◌, ◌^◌, ◌<◌, ℕ, List, [], ◌∷◌, All, IsTrue, Ok};
ghost use Rattle.std.specs.List.{list_all};
ghost use Rattle.std.specs.Fmt.{decimal};
ghost use Rattle.ikl_base.specs.declared.address.Addr.{Addr};
ghost use Rattle.ikl_base.specs.declared.address.Prefix.{Prefix};
ghost use Rattle.yang_values.specs.Numbers.{u64_of};
ghost use Rattle.yang_values.specs.HexText.{digits_of, digits_text, hex_of, hex_colons};
ghost use Rattle.yang_values.specs.Addresses.{IsAddress, address_of, address_text};
ghost use Rattle.yang_values.specs.Prefixes.{is_value_octet, prefix_of, prefix_text};

/// The canonical text of a number is read as that number.
pub fn u64_read_again()
    ensures { (n : ℕ) → n < 2 ^ 64 → u64_of (decimal n) ≡ Ok n }
{}

/// The digits of some octets are read as those octets.
pub fn digits_read_again()
    ensures { (first : ℕ) (rest : List ℕ) → All (λ o. o < 256) (first ∷ rest)
        → digits_of (digits_text (first ∷ rest)) ≡ Ok (first ∷ rest) }
{}

/// The canonical `hex-string` of octets is read as those octets.
pub fn hex_read_again()
    ensures { (octets : List ℕ) → All (λ o. o < 256) octets → hex_of (hex_colons octets) ≡ Ok octets }
{}

/// The canonical text of an address is read as that address.
pub fn address_read_again()
    ensures { (a : Addr) → IsAddress a → address_of (address_text a) ≡ Ok a }
{}

/// The canonical text of a prefix is read as that prefix.
pub fn prefix_read_again()
    ensures { (p : Prefix) → IsAddress p.addr → prefix_of (prefix_text p) ≡ Ok p }
{}

/// What stands in a canonical text: no comma, no space and no sign but those of the value itself.
pub fn plain_texts()
    ensures number { (n : ℕ) → n < 2 ^ 64 → IsTrue (list_all is_value_octet (decimal n)) }
    ensures address { (a : Addr) → IsAddress a → IsTrue (list_all is_value_octet (address_text a)) }
    ensures prefix { (p : Prefix) → IsAddress p.addr → IsTrue (list_all is_value_octet (prefix_text p)) }
{}

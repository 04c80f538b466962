ghost use Rattle.std.specs.Prelude.{◌≡◌, ℕ, ℤ, ◌<◌, ◌^◌, List, decimal, FitsSigned, Some, Ok};
ghost use Rattle.std.specs.Fmt.{signed_decimal};
ghost use Rattle.std.specs.Int.{w32};
ghost use Rattle.artery_base.specs.declared.address.Address.{Address as AddressValue};
ghost use Rattle.artery_base.specs.declared.address.UniqueAddress.{UniqueAddress as UniqueAddressValue};
ghost use Rattle.artery_text.specs.Spelling.{AreBytes, IsToken, hex_text, word_text, IsAddress, address_text, IsUniqueAddress, unique_text};
ghost use Rattle.artery_text.specs.Reading.{number_of, int32_of, hex_of, word_of, address_of, unique_of};

/// A law, with no code: the spelling of each value reads as that value.
pub fn spellings_are_read()
    ensures numbers { (n : ℕ) → n < 2 ^ 64 → number_of (decimal n) ≡ Some n }
    ensures int32s { (z : ℤ) → FitsSigned w32 z → int32_of (signed_decimal z) ≡ Some z }
    ensures hexadecimal { (bytes : List ℕ) → AreBytes bytes → hex_of (hex_text bytes) ≡ Ok bytes }
    ensures words { (bytes : List ℕ) → AreBytes bytes → word_of (word_text bytes) ≡ Ok bytes }
    ensures addresses { (a : AddressValue) → IsAddress a → address_of (address_text a) ≡ Ok a }
    ensures uniques { (u : UniqueAddressValue) → IsUniqueAddress u → unique_of (unique_text u) ≡ Ok u }
{}

/// A law, with no code: a text that reads as a value is that value's spelling.
pub fn readings_are_spelled()
    ensures numbers { (text : List ℕ) (n : ℕ) → number_of text ≡ Some n → (n < 2 ^ 64) × (text ≡ decimal n) }
    ensures int32s { (text : List ℕ) (z : ℤ) → int32_of text ≡ Some z → FitsSigned w32 z × (text ≡ signed_decimal z) }
    ensures hexadecimal { (text bytes : List ℕ) → hex_of text ≡ Ok bytes → text ≡ hex_text bytes }
    ensures words { (text bytes : List ℕ) → word_of text ≡ Ok bytes → text ≡ word_text bytes }
    ensures addresses { (text : List ℕ) (a : AddressValue) → address_of text ≡ Ok a → IsAddress a × (text ≡ address_text a) }
    ensures uniques { (text : List ℕ) (u : UniqueAddressValue) → unique_of text ≡ Ok u → IsUniqueAddress u × (text ≡ unique_text u) }
{}

/// A law, with no code: each spelling is one token, not empty and of visible ASCII bytes alone.
pub fn spellings_are_tokens()
    ensures numbers { (n : ℕ) → n < 2 ^ 64 → IsToken (decimal n) }
    ensures int32s { (z : ℤ) → FitsSigned w32 z → IsToken (signed_decimal z) }
    ensures hexadecimal { (bytes : List ℕ) → AreBytes bytes → IsToken (hex_text bytes) }
    ensures words { (bytes : List ℕ) → AreBytes bytes → IsToken (word_text bytes) }
    ensures addresses { (a : AddressValue) → IsAddress a → IsToken (address_text a) }
    ensures uniques { (u : UniqueAddressValue) → IsUniqueAddress u → IsToken (unique_text u) }
{}

ghost use Rattle.std.specs.Prelude.{◌≡◌, ◌≢◌, ◌<◌, ◌≤◌, ◌-◌, ◌^◌, ◌++◌, ℕ, List, [], false, length, replicate, Ok};
ghost use Rattle.std.specs.Fmt.{decimal, digits};
ghost use Rattle.hex.specs.Hex.{encode_lower, IsBytes};
ghost use Rattle.n41_words.specs.Numbers.{number, octal, hex_bytes};
ghost use Rattle.n41_written.specs.Written.{ReadsWhatIsWritten};

/// A law: a command that a line says is said by the line that is written for it.
pub fn what_is_written_is_read()
    ensures { ReadsWhatIsWritten }
{}

/// A law: a number that is written is read, in decimal and in octal, and is written in one way.
pub fn numbers_are_read_back()
    ensures decimal { (limit n : ℕ) → n < limit → n < 2 ^ 64 → number limit (decimal n) ≡ Ok n }
    ensures octal { (limit n : ℕ) → n < limit → n < 2 ^ 64 → octal limit (replicate (4 - length (digits 8 false n)) 48 ++ digits 8 false n) ≡ Ok n }
    ensures one_way { (limit n : ℕ) (word : List ℕ) → limit ≤ 2 ^ 64 → number limit word ≡ Ok n → (n < limit) × (word ≡ decimal n) }
{}

/// A law: bytes that are written in hexadecimal are read, and what is read is one byte at least.
pub fn bytes_are_read_back()
    ensures read { (bytes : List ℕ) → IsBytes bytes → bytes ≢ [] → hex_bytes (encode_lower bytes) ≡ Ok bytes }
    ensures some { (word bytes : List ℕ) → hex_bytes word ≡ Ok bytes → IsBytes bytes × (bytes ≢ []) }
{}

// What a digit is worth, and how it is written.
ghost use Rattle.std.specs.Prelude.{◌≡◌, ◌%◌};
ghost use Rattle.text.specs.Digit.{hex_digit_of};
ghost use Rattle.text.specs.Put.{written_of};

// A hexadecimal digit of either case, and nothing for any other byte.
pub fn value(c: u8) -> Option<u64>
    ensures { result ≡ hex_digit_of c }
{
    let digit = char::from(c).to_digit(16)?;
    Some(u64::from(digit))
}

#[derive(Clone, Copy)]
pub enum Case {
    Lower,
    Upper,
}

// The low half of a byte as a hexadecimal digit. The library reads digits (`to_digit`) and writes none.
#[tactic(auto, unfolding(crate::specs::Put::letter_of, crate::specs::Put::capital_of))]
pub fn written(b: u8, case: Case) -> u8
    ensures { result ≡ written_of case (b % 16) }
{
    let v = b & 15;
    match case {
        Case::Lower if v < 10 => v + 48,
        Case::Lower => v + 87,
        Case::Upper if v < 10 => v + 48,
        Case::Upper => v + 55,
    }
}

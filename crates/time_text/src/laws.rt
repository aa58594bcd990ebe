//! What the texts of dates promise to those who read them.

ghost use Rattle.std.specs.Prelude.{◌≡◌, ℕ, List, [], ◌∷◌, ◌++◌, ◌<◌, ◌≤◌, length, take, All};
ghost use Rattle.time_text.specs.Texts.{InRange, all_digits, time_digits, warc_date};
ghost use Rattle.time_text.specs.Bytes.{IsDigit, IsVisible};

/// Dates with equal texts are equal.
pub fn dates_are_told_by_their_texts()
    ensures digits { (a b : ℕ) → time_digits a ≡ time_digits b → a ≡ b }
    ensures warc { (a b : ℕ) → warc_date a ≡ warc_date b → a ≡ b }
{}

/// No WARC-Date is the beginning of another's, and neither are the digits of a date with a byte
/// behind them that comes before the digits, such as a blank or `/`.
pub fn texts_end_where_they_end()
    ensures warc { (a b : ℕ) (x y : List ℕ) → warc_date a ++ x ≡ warc_date b ++ y → (a ≡ b)
        × (x ≡ y) }
    ensures digits { (a b end : ℕ) (x y : List ℕ) → end < 48
        → time_digits a ++ end ∷ x ≡ time_digits b ++ end ∷ y → (a ≡ b) × (x ≡ y) }
{}

/// The texts are short and have neither blanks nor line ends, and the digits are digits.
pub fn texts_have_no_blanks()
    ensures digits { (date n : ℕ) → InRange date → All IsDigit (take n (all_digits date)) }
    ensures time { (date : ℕ) → InRange date → All IsDigit (time_digits date) }
    ensures warc { (date : ℕ) → InRange date → All IsVisible (warc_date date) }
    ensures short { (date : ℕ) → (length (time_digits date) ≤ 17)
        × (length (warc_date date) ≤ 24) }
{}

//! Whole numbers of 128 signed bits.

ghost use Rattle.std.specs.Prelude.{◌≡◌, ◌≢◌, ◌≤◌, ◌^◌, ◌<◌, pos, neg_ℤ, ◌+ℤ◌, ◌-ℤ◌, ◌*ℤ◌, MatchOption};
ghost use Rattle.pc_tree.specs.Digits.{number_behind};
ghost use Rattle.pc_value.specs.Numbers.{floor_div, floor_mod, floor_div_by, floor_mod_by};
ghost use Rattle.pc_value.specs.Wholes.{whole_of, if_it_fits};
ghost use Rattle.pc_value.specs.Doing.{written_number};

/// A whole number by its sign: `n`, or `-1 - n`.
#[derive(Clone, Copy)]
pub enum WholeNumber {
    AtLeastZero(u128),
    BelowZero(u128),
}

impl WholeNumber {
    /// Returns a number of 128 signed bits by its sign.
    pub fn of(n: i128) -> WholeNumber
        ensures { whole_of result ≡ n }
    {
        if n >= 0 {
            WholeNumber::AtLeastZero(n.unsigned_abs())
        } else {
            WholeNumber::BelowZero(n.unsigned_abs() - 1)
        }
    }

    /// Returns the number, or `None` if it does not fit 128 signed bits.
    fn fit(self) -> Option<i128>
        ensures { result ≡ if_it_fits (whole_of self) }
    {
        match self {
            WholeNumber::AtLeastZero(n) => { if n < 1 << 127 { Some(n as i128) } else { None } }
            WholeNumber::BelowZero(n) => {
                if n < 1 << 127 {
                    Some(-1 - n as i128)
                } else {
                    None
                }
            }
        }
    }
}

/// Returns the value of decimal digits, or `None` if it does not fit 128 bits.
/// Language Reference 2.4.4 "Numeric literals".
fn read_digits(digits: &[u8]) -> Option<u128>
    ensures { MatchOption result (2 ^ 128 ≤ number_behind 0 digits.now) (λ n. n ≡ number_behind 0 digits.now) }
{
    // Unsigned, since the digits of the least signed number are one more than the greatest signed number.
    let mut number: u128 = 0;
    for digit in digits {
        let Some(shifted) = number.checked_mul(10) else {
            return None;
        };
        let Some(next) = shifted.checked_add(u128::from(digit.saturating_sub(48))) else {
            return None;
        };
        number = next;
    }
    Some(number)
}

/// Returns the value of decimal digits, negated if `below_zero`, or `None` if it does not fit 128 signed bits.
pub fn read_number(below_zero: bool, digits: &[u8]) -> Option<i128>
    ensures { result ≡ if_it_fits (written_number below_zero digits.now) }
{
    let number = read_digits(digits)?;
    if below_zero && number > 0 {
        // Kept as one less than its distance from zero, so that the least number has a form too.
        WholeNumber::BelowZero(number - 1).fit()
    } else {
        WholeNumber::AtLeastZero(number).fit()
    }
}

/// Returns the floor quotient of a whole number by a positive divisor.
fn div_by(number: WholeNumber, divisor: u128) -> WholeNumber
    requires { 0 < divisor }
    ensures { whole_of result ≡ floor_div_by (whole_of number) divisor }
{
    match number {
        WholeNumber::AtLeastZero(n) => WholeNumber::AtLeastZero(n / divisor),
        WholeNumber::BelowZero(n) => WholeNumber::BelowZero(n / divisor),
    }
}

/// Returns the remainder of floor division by a positive divisor.
fn mod_by(number: WholeNumber, divisor: u128) -> u128
    requires { 0 < divisor }
    ensures { pos result ≡ floor_mod_by (whole_of number) divisor }
{
    match number {
        WholeNumber::AtLeastZero(n) => n % divisor,
        WholeNumber::BelowZero(n) => divisor - 1 - n % divisor,
    }
}

/// Returns the negated number, by its sign.
fn opposite(number: i128) -> WholeNumber
    ensures { whole_of result ≡ neg_ℤ number }
{
    if number <= 0 {
        WholeNumber::AtLeastZero(number.unsigned_abs())
    } else {
        WholeNumber::BelowZero(number.unsigned_abs() - 1)
    }
}

/// Returns the quotient rounded toward minus infinity, or `None` if it does not fit 128 signed bits. Language
/// Reference 6.7 "Binary arithmetic operations".
pub fn floor_div(number: i128, divisor: i128) -> Option<i128>
    requires { divisor ≢ pos 0 }
    ensures { result ≡ if_it_fits (floor_div number divisor) }
{
    if divisor > 0 {
        div_by(WholeNumber::of(number), divisor.unsigned_abs()).fit()
    } else {
        div_by(opposite(number), divisor.unsigned_abs()).fit()
    }
}

/// Returns the remainder of floor division, which has the sign of the divisor.
/// Language Reference 6.7 "Binary arithmetic operations".
pub fn floor_mod(number: i128, divisor: i128) -> Option<i128>
    requires { divisor ≢ pos 0 }
    ensures { result ≡ if_it_fits (floor_mod number divisor) }
{
    if divisor > 0 {
        WholeNumber::AtLeastZero(mod_by(WholeNumber::of(number), divisor.unsigned_abs())).fit()
    } else {
        let left = mod_by(opposite(number), divisor.unsigned_abs());
        if left == 0 {
            WholeNumber::AtLeastZero(0).fit()
        } else {
            WholeNumber::BelowZero(left - 1).fit()
        }
    }
}

/// Returns the negated number, or `None` if it does not fit 128 signed bits.
pub fn negated(number: i128) -> Option<i128>
    ensures { result ≡ if_it_fits (neg_ℤ number) }
{
    opposite(number).fit()
}

/// Returns the sum, or `None` if it does not fit 128 signed bits.
pub fn sum(left: i128, right: i128) -> Option<i128>
    ensures { result ≡ if_it_fits (left +ℤ right) }
{
    left.checked_add(right)
}

/// Returns the difference, or `None` if it does not fit 128 signed bits.
pub fn difference(left: i128, right: i128) -> Option<i128>
    ensures { result ≡ if_it_fits (left -ℤ right) }
{
    left.checked_sub(right)
}

/// Returns the product, or `None` if it does not fit 128 signed bits.
pub fn product(left: i128, right: i128) -> Option<i128>
    ensures { result ≡ if_it_fits (left *ℤ right) }
{
    left.checked_mul(right)
}

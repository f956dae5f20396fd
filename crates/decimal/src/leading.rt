// The first nine digits of a number that does not fit 64 bits.
ghost use Rattle.std.specs.Prelude.{◌≡◌, ℕ, ◌*◌, ◌^◌, ◌≤◌, ◌<◌, length};
ghost use Rattle.decimal.specs.Leading.{Short, Leads};
ghost use Rattle.decimal.specs.Inner.{digits_of, carried};

// The first nine digits of a number, and how many follow.
#[derive(Clone, Copy, Debug, PartialEq, Eq)]
pub struct Lead {
    pub digits: usize,
    pub more: usize,
}

// Digits, the lowest first, times b, and c more.
fn times(digits: &mut [u8], b: usize, c: usize)
    requires { (b ≤ 5) × (c < 16777216) }
    ensures { digits.new ≡ carried b c digits.old }
{
    let mut carry = c;
    for digit in digits.iter_mut() {
        let n = usize::from(*digit) * b + carry;
        *digit = (n % 10) as u8;
        carry = n / 10;
    }
}

// The first nine of 112 digits, from the highest down; zeros before them do not count.
#[tactic(auto, using(crate::proofs::Laws::Leading::from_none, crate::proofs::Laws::Leading::from_more))]
fn first(digits: &[u8; 112]) -> Lead
    ensures by_index { (n : ℕ) → digits.now ≡ digits_of 112 n → Short n → Leads n result.digits result.more }
    ensures more_bound { result.more ≤ 112 }
{
    let mut lead = 0;
    for more in (0..112).rev() {
        if 100000000 <= lead {
            return Lead {
                digits: lead,
                more: more + 1,
            };
        }
        lead = lead * 10 + usize::from(digits[more]);
    }
    Lead {
        digits: lead,
        more: 0,
    }
}

// The first nine digits of m times b^k, and how many follow.
// m stays a number: a type with its bound would be made for this call alone. The 112 digits are used whole, each time.
#[tactic(auto, using(crate::proofs::Laws::Leading::power_more))]
pub fn leading(m: usize, b: usize, k: usize) -> Lead
    requires { (m < 16777216) × (b ≤ 5) × Short (m * b ^ k) }
    ensures leads { Leads (m * b ^ k) result.digits result.more }
    ensures more_bound { result.more ≤ 112 }
{
    let mut digits = [0u8; 112];
    times(&mut digits, 0, m);
    for _ in 0..k {
        times(&mut digits, b, 0);
    }
    first(&digits)
}

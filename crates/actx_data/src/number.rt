//! The exact arithmetic of whole numbers from -(2^53 - 1) to 2^53 - 1, as `add(2, 3)` is `Some(5)` (ECMA-262,
//! 6.1.6.1, restricted).

ghost use Rattle.std.specs.Prelude.{◌≡◌, IfOk};
ghost use Rattle.std.specs.Fmt.{signed_decimal};
ghost use Rattle.actx_data.specs.Number.{IsWhole, in_profile, sum_of, difference_of, product_of};

use super::{NoMemory, Units};
use std::alloc::Global;

/// The greatest number; its negation is the least.
const GREATEST: i64 = 9_007_199_254_740_991;

/// The sum; `None` exactly where it is out of range (ECMA-262, 6.1.6.1.7).
pub fn add(a: i64, b: i64) -> Option<i64>
    requires left { IsWhole a }
    requires right { IsWhole b }
    ensures { result ≡ sum_of a b }
{
    in_range(a + b)
}

/// The difference; `None` exactly where it is out of range (ECMA-262, 6.1.6.1.8).
pub fn sub(a: i64, b: i64) -> Option<i64>
    requires left { IsWhole a }
    requires right { IsWhole b }
    ensures { result ≡ difference_of a b }
{
    in_range(a - b)
}

/// The product; `None` exactly where it is out of range (ECMA-262, 6.1.6.1.4).
pub fn mul(a: i64, b: i64) -> Option<i64>
    requires left { IsWhole a }
    requires right { IsWhole b }
    ensures { result ≡ product_of a b }
{
    // A product that leaves the machine's range leaves the smaller one too.
    in_range(a.checked_mul(b)?)
}

/// The number, where it is in range.
fn in_range(n: i64) -> Option<i64>
    ensures { result ≡ in_profile n }
{
    if -GREATEST <= n && n <= GREATEST {
        Some(n)
    } else {
        None
    }
}

/// The decimal text of a number, as `-12` (ECMA-262, 6.1.6.1.20, with the radix 10).
pub fn number_text(alloc: Global, n: i64) -> Result<Units, NoMemory>
    ensures { IfOk result (λ u. u ≡ signed_decimal n) }
{
    let text = format!(in alloc; "{n}")?;
    let list = text
        .as_bytes()
        .iter()
        .map(|b| u16::from(*b))
        .collect(alloc)?;
    Ok(Units::from_vec(list))
}

#[cfg(test)]
mod tests {
    use super::*;
    use std::test::Fail;

    #[test]
    fn arithmetic_ends_at_the_greatest_and_the_least(rt: HostRuntime) {
        assert_eq!(rt; add(9_007_199_254_740_990, 1), Some(9_007_199_254_740_991));
        assert_eq!(rt; add(9_007_199_254_740_991, 1), None);
        assert_eq!(rt;
            add(-9_007_199_254_740_990, -1),
            Some(-9_007_199_254_740_991)
        );
        assert_eq!(rt; add(-9_007_199_254_740_991, -1), None);
        assert_eq!(rt; sub(2, 5), Some(-3));
        assert_eq!(rt;
            sub(-9_007_199_254_740_990, 1),
            Some(-9_007_199_254_740_991)
        );
        assert_eq!(rt; sub(-9_007_199_254_740_991, 1), None);
        assert_eq!(rt; sub(9_007_199_254_740_991, -1), None);
        // 2^53 - 1 is 441,650,591 times 20,394,401.
        assert_eq!(rt; mul(441_650_591, 20_394_401), Some(9_007_199_254_740_991));
        assert_eq!(rt; mul(-441_650_591, 20_394_401), Some(-9_007_199_254_740_991));
        assert_eq!(rt; mul(4_503_599_627_370_496, 2), None);
        assert_eq!(rt; mul(9_007_199_254_740_991, 9_007_199_254_740_991), None);
        assert_eq!(rt; mul(-9_007_199_254_740_991, 9_007_199_254_740_991), None);
    }

    #[test]
    fn number_texts(rt: HostRuntime) -> Result<(), Fail> {
        let cases = [
            (0, "0"),
            (-1, "-1"),
            (9_007_199_254_740_991, "9007199254740991"),
            (-9_007_199_254_740_991, "-9007199254740991"),
        ];
        for (number, text) in cases {
            let units = number_text(rt.alloc(), number)?;
            let shown = units.to_text(rt.alloc())?;
            assert_eq!(rt; shown.as_str(), text);
        }
        Ok(())
    }
}

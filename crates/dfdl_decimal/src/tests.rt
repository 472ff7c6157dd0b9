use super::laws::form_writes_the_number;
use super::{DivFault, Fixed, Overflow, shortest};
use std::cmp::Ordering;

// The greatest mantissa, of 38 nines.
const MOST: i128 = 99_999_999_999_999_999_999_999_999_999_999_999_999;

fn number(digits: (i128, u32)) -> Result<Fixed, Overflow> {
    shortest(digits.0 < 0, digits.0.unsigned_abs(), digits.1).ok_or(Overflow)
}

#[test]
fn the_form_of_a_number(rt: HostRuntime) -> Result<(), Overflow> {
    let half = number((-500, 3))?;
    assert_eq!(rt; half.mantissa(), -5);
    assert_eq!(rt; half.scale(), 1);
    form_writes_the_number(&half);
    let nothing = number((0, u32::MAX))?;
    assert_eq!(rt; nothing.scale(), 0);
    assert!(rt; shortest(false, 1, 256).is_none());
    assert!(rt; shortest(true, u128::MAX, 0).is_none());
    Ok(())
}

// The expected values are those of Python's decimal module.
#[test]
fn sums_and_differences(rt: HostRuntime) -> Result<(), Overflow> {
    let rows = [
        ((5, 1), (5, 1), (1, 0), (0, 0)),
        (
            (12345678901234567890123456789, 9),
            (-987654321000000000000000001, 17),
            (1234567889135802468012345678899999999, 17),
            (1234567891111111110012345678900000001, 17),
        ),
        ((0, 0), (-725, 2), (-725, 2), (725, 2)),
        ((MOST - 1, 0), (1, 0), (MOST, 0), (MOST - 2, 0)),
    ];
    for (left, right, sum, difference) in rows {
        let (left, right) = (number(left)?, number(right)?);
        assert!(rt; left.add(&right)? == number(sum)?);
        assert!(rt; left.sub(&right)? == number(difference)?);
    }
    let most = number((MOST, 0))?;
    assert!(rt; most.add(&number((1, 0))?).is_err());
    assert!(rt; most.sub(&number((1, 1))?).is_err());
    Ok(())
}

#[test]
fn products_and_quotients(rt: HostRuntime) -> Result<(), Overflow> {
    let products = [
        ((125, 2), (-8, 1), (-1, 0)),
        (
            (199999999999999999995, 1),
            (2, 0),
            (39999999999999999999, 0),
        ),
        (
            (1267650600228229401496703205376, 0),
            (9765625, 0),
            (12379400392853802748991242240000000000, 0),
        ),
        ((19073486328125, 13), (524288, 0), (1000000, 0)),
    ];
    for (left, right, product) in products {
        assert!(rt; number(left)?.mul(&number(right)?)? == number(product)?);
    }
    let quotients = [
        ((1, 0), (8, 0), (125, 3)),
        ((-75, 1), (25, 2), (-30, 0)),
        ((1, 0), (262144, 0), (3814697265625, 18)),
        (
            (10000000000000000000000000000000000000, 0),
            (5, 1),
            (20000000000000000000000000000000000000, 0),
        ),
    ];
    for (left, right, quotient) in quotients {
        assert!(rt; number(left)?.div(&number(right)?) == Ok(number(quotient)?));
    }
    let one = number((1, 0))?;
    let most = number((MOST, 0))?;
    assert!(rt; most.mul(&most).is_err());
    assert!(rt; one.div(&number((0, 0))?) == Err(DivFault::Zero));
    assert!(rt; one.div(&number((524288, 0))?) == Err(DivFault::Inexact));
    assert!(rt; one.div(&number((3, 0))?) == Err(DivFault::Inexact));
    assert!(rt; most.div(&number((1, 1))?) == Err(DivFault::Overflow));
    Ok(())
}

#[test]
fn the_order_of_numbers(rt: HostRuntime) -> Result<(), Overflow> {
    let rows = [
        ((-1, 0), (5, 1), Ordering::Less),
        ((30, 2), (3, 1), Ordering::Equal),
        ((-31, 2), (-3, 1), Ordering::Less),
        ((MOST, 0), (1, 38), Ordering::Greater),
    ];
    for (left, right, order) in rows {
        let (left, right) = (number(left)?, number(right)?);
        assert!(rt; left.cmp(&right) == order);
        assert!(rt; right.cmp(&left) == order.reverse());
    }
    Ok(())
}

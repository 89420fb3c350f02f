// The field: products, inverses and powers that are known.
use field::{alpha_power, exponent, inverse, product};

#[test]
fn known_values(rt: HostRuntime) {
    assert_eq!(rt; product(2, 512), 9);
    assert_eq!(rt; product(1023, 1023), 698);
    assert_eq!(rt; product(0, 77), 0);
    assert_eq!(rt; product(1024 + 2, 512), 9, "the lowest ten bits count");
    assert_eq!(rt; inverse(2), 516);
    assert_eq!(rt; inverse(0), 0);
    assert_eq!(rt; alpha_power(10), 9);
    assert_eq!(rt; alpha_power(1023), 1);
    assert_eq!(rt; exponent(9), Some(10));
    assert_eq!(rt; exponent(1024), None);
}

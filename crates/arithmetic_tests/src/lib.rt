// Examples of the arithmetic: those that Intel prints with its instructions, and the edges.
#![tactic(auto)]

#[cfg(test)]
mod tests {
    use arithmetic::addresses::*;
    use arithmetic::bits::*;
    use arithmetic::shifts::*;
    use arithmetic::sums::*;

    #[test]
    fn sums(rt: HostRuntime) {
        assert_eq!(rt; add(0x7f, 0x01, false), (0x80, AUXILIARY + OVERFLOW));
        assert_eq!(rt; add(0xff, 0x01, false), (0x00, CARRY + AUXILIARY));
        assert_eq!(rt; add(0xc3, 0xaa, false), (0x6d, CARRY + OVERFLOW));
        assert_eq!(rt; add(0xc3, 0xaa, true), (0x6e, CARRY + OVERFLOW));
        assert_eq!(rt; add(0xff, 0xff, true), (0xff, CARRY + AUXILIARY));
    }

    #[test]
    fn differences(rt: HostRuntime) {
        assert_eq!(rt; subtract(0xc9, 0x54, true), (0x74, OVERFLOW));
        assert_eq!(rt; subtract(0x00, 0x01, false), (0xff, CARRY + AUXILIARY));
        assert_eq!(rt; subtract(0x80, 0x01, false), (0x7f, AUXILIARY + OVERFLOW));
        assert_eq!(rt; subtract(0x42, 0xff, true), (0x42, 0));
        assert_eq!(rt; subtract(0x00, 0x7f, true), (0x80, CARRY + OVERFLOW));
    }

    #[test]
    fn products_and_quotients(rt: HostRuntime) {
        assert_eq!(rt; multiply(0x50, 0xa0), (0x00, 0x32, OVERFLOW));
        assert_eq!(rt; multiply(0xff, 0x01), (0xff, 0x00, 0));
        assert_eq!(rt; divide(0xfb, 0x12), (0x0d, 0x11, 0));
        assert_eq!(rt; divide(0x35, 0x00), (0x35, 0x00, OVERFLOW));
    }

    #[test]
    fn decimal(rt: HostRuntime) {
        assert_eq!(rt; decimal_adjust(0xbe, false, false), (0x24, CARRY));
        assert_eq!(rt; decimal_adjust(0xc9, false, false), (0x29, CARRY));
        assert_eq!(rt; decimal_adjust(0x9a, false, false), (0x00, CARRY));
        assert_eq!(rt; decimal_adjust(0x12, true, true), (0x78, CARRY));
    }

    #[test]
    fn rotates(rt: HostRuntime) {
        assert_eq!(rt; rotate_left(0xc5), 0x8b);
        assert_eq!(rt; rotate_left_carry(0xc5, false), (0x8a, CARRY));
        assert_eq!(rt; rotate_right(0xc5), 0xe2);
        assert_eq!(rt; rotate_right_carry(0xc5, false), (0x62, CARRY));
        assert_eq!(rt; swap(0xc5), 0x5c);
        assert_eq!(rt; exchange_digits(0x36, 0x75), (0x35, 0x76));
    }

    #[test]
    fn single_bits(rt: HostRuntime) {
        assert_eq!(rt; parity(0x07), 1);
        assert_eq!(rt; parity(0xc5), 0);
        assert!(rt; bit(0x20, 5) && bit(0x20, 13) && !bit(0x20, 4));
        assert_eq!(rt; with_bit(0x5d, 2, false), 0x59);
        assert_eq!(rt; with_bit(0x5d, 1, true), 0x5f);
        assert_eq!(rt; with_flags(0xff, CARRY + OVERFLOW, 0x00), 0x7b);
        assert_eq!(rt; with_flags(0x19, CARRY, CARRY + AUXILIARY), 0x99);
    }

    #[test]
    fn targets(rt: HostRuntime) {
        assert_eq!(rt; word(0x12, 0x34), 0x1234);
        assert_eq!(rt; relative(0x0102, 0x21), 0x0123);
        assert_eq!(rt; relative(0x0001, 0x80), 0xff81);
        assert_eq!(rt; relative(0xfffe, 0x7f), 0x007d);
        assert_eq!(rt; absolute(0x0347, 0x123), 0x0123);
        assert_eq!(rt; absolute(0x0800, 0x7ff), 0x0fff);
        assert_eq!(rt; indexed(0xff80, 0xff), 0x007f);
    }
}

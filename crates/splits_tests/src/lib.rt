// Tests of splitting over the scalars: worked gates, and every gate at a small order, against Lagrange's formula.
#![tactic(auto)]

mod gates;
mod lagrange;

#[cfg(test)]
mod tests {
    use crate::gates::{every_gate, split_values};
    use fields::{Scalar, Scalars};
    use std::test::Fail;

    fn order(q: u32) -> Result<Scalars, Fail> {
        Scalars::new(q).map_err(|_| Fail::new("the order is refused"))
    }

    // any of two: own 7 and child one 2 give 8, where shares that add up would give 5
    #[test]
    fn any_of_two(rt: HostRuntime) -> Result<(), Fail> {
        let row = split_values(&order(11)?, 2, 7, 0b01, [2, 0, 0, 0, 0, 0, 0, 0]);
        assert!(rt; row[0].value() == 2 && row[1].value() == 8);
        Ok(())
    }

    #[test]
    fn two_of_three(rt: HostRuntime) -> Result<(), Fail> {
        let row = split_values(&order(11)?, 3, 7, 0b001, [2, 0, 0, 0, 0, 0, 0, 0]);
        assert!(rt; row[0].value() == 2 && row[1].value() == 8 && row[2].value() == 3);
        Ok(())
    }

    #[test]
    fn every_gate_at_eleven(rt: HostRuntime) -> Result<(), Fail> {
        let field = order(11)?;
        for own in 0..11u32 {
            assert!(rt; every_gate(&field, own, [2, 9, 4, 0, 10, 7, 1, 5]));
            assert!(rt; every_gate(&field, own, [own, 3, own, 8, 6, own, 2, 10]));
        }
        Ok(())
    }

    #[test]
    fn edges_of_the_largest_order(rt: HostRuntime) -> Result<(), Fail> {
        let field = order(2147483647)?;
        assert!(rt;
            every_gate(
                &field,
                2147483646,
                [
                    2147483646, 0, 1, 2147483645, 2147483646, 2147483646, 0, 1073741824,
                ],
            )
        );
        assert!(rt;
            every_gate(
                &field,
                0,
                [2147483646, 2147483646, 2147483646, 2147483646, 0, 0, 0, 1],
            )
        );
        assert!(rt; every_gate(&field, 1, [0, 0, 0, 0, 0, 0, 0, 0]));
        Ok(())
    }
}

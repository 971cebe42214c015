// Leaf kinds at numbers worked out by hand: q = 11, the residues modulo 23 with g = 4 and h = 9, the circle modulo 43 with g = (2, 13) and h = (26, 23).
#![tactic(auto)]

#[cfg(test)]
mod tests {
    use fields::Scalar;
    use groups::{CircleGroup, Residue, ResidueGroup};
    use kinds::*;
    use refusals::Refusal;
    use std::test::Fail;
    use stranger::Multiples;
    use supplied::{Supplied, supplied};

    fn residues() -> Result<ResidueGroup, Refusal> {
        ResidueGroup::new(11, 23, Residue::new(4), Residue::new(9))
    }

    fn circle() -> Result<CircleGroup, Refusal> {
        let g = (Residue::new(2), Residue::new(13));
        let h = (Residue::new(26), Residue::new(23));
        CircleGroup::new(11, 43, g, h)
    }

    fn six() -> Result<Supplied, Refusal> {
        supplied(residues()?, circle()?)
    }

    fn key(u: u32, v: u32) -> Key {
        (Scalar::new(u), Scalar::new(v))
    }

    // The image of one word.
    fn word(a: u32) -> Image {
        Image((a, 0), (0, 0))
    }

    #[test]
    fn images_of_keys(rt: HostRuntime) -> Result<(), Fail> {
        let set = six()?;
        for (kind, u, v, image) in [
            (1, 5, 0, word(12)),
            (2, 5, 0, Image((12, 0), (8, 0))),
            (3, 3, 7, word(3)),
            (4, 3, 0, Image((26, 23), (0, 0))),
            (5, 3, 0, Image((26, 23), (7, 34))),
            (6, 1, 2, Image((11, 3), (0, 0))),
        ] {
            assert_eq!(rt; key_image(&set, kind, key(u, v)), image, "kind {kind}");
        }
        Ok(())
    }

    // A second scalar at width 1, scalars that are not below q, a number that no kind has.
    #[test]
    fn no_keys(rt: HostRuntime) -> Result<(), Fail> {
        let set = six()?;
        for (kind, u, v) in [(2, 5, 1), (1, 11, 0), (6, 1, 11), (7, 0, 0)] {
            assert_eq!(rt;
                key_image(&set, kind, key(u, v)),
                Image::ZEROS,
                "kind {kind}"
            );
        }
        Ok(())
    }

    // 5 is no element of the residue group.
    #[test]
    fn products(rt: HostRuntime) -> Result<(), Fail> {
        let set = six()?;
        for (kind, a, b, product) in [
            (
                2,
                Image((12, 0), (8, 0)),
                Image((4, 0), (9, 0)),
                Image((2, 0), (3, 0)),
            ),
            (
                6,
                Image((11, 3), (0, 0)),
                Image((2, 13), (0, 0)),
                Image((26, 20), (0, 0)),
            ),
            (1, word(5), word(12), Image::ZEROS),
            (1, word(12), word(5), Image::ZEROS),
            (0, word(12), word(12), Image::ZEROS),
        ] {
            assert_eq!(rt; image_product(&set, kind, &a, &b), product, "kind {kind}");
        }
        Ok(())
    }

    #[test]
    fn powers(rt: HostRuntime) -> Result<(), Fail> {
        let set = six()?;
        for (kind, a, exponent, power) in [
            (1, word(12), 7, word(16)),
            (2, Image((12, 0), (8, 0)), 3, Image((3, 0), (6, 0))),
            (6, Image((11, 3), (0, 0)), 11, word(1)),
            (1, word(5), 0, word(1)),
            (1, word(5), 4294967295, Image::ZEROS),
        ] {
            assert_eq!(rt; image_power(&set, kind, &a, exponent), power, "kind {kind}");
        }
        Ok(())
    }

    fn width_by_hand(kind: u8) -> u8 {
        match kind {
            1 | 2 | 4 | 5 => 1,
            3 | 6 => 2,
            _ => 0,
        }
    }

    fn neutral_by_hand(kind: u8) -> Image {
        match kind {
            2 | 5 => Image((1, 0), (1, 0)),
            1 | 3 | 4 | 6 => word(1),
            _ => Image::ZEROS,
        }
    }

    #[test]
    fn all_kind_numbers(rt: HostRuntime) -> Result<(), Fail> {
        let set = six()?;
        for kind in 0..=255u8 {
            let neutral = neutral_by_hand(kind);
            assert_eq!(rt; set.width(kind), width_by_hand(kind), "kind {kind}");
            assert_eq!(rt; neutral_image(&set, kind), neutral, "kind {kind}");
            assert_eq!(rt; key_image(&set, kind, key(0, 0)), neutral, "kind {kind}");
            assert_eq!(rt;
                set.is_image(kind, &neutral),
                (1..=6).contains(&kind),
                "kind {kind}"
            );
            assert!(rt; !set.is_image(kind, &Image::ZEROS), "kind {kind}");
        }
        Ok(())
    }

    // A refusal's number and place; none where there is no refusal.
    // kept: number and place are what users are told, so they are what is expected here
    fn told<T: Drop>(made: Result<T, Refusal>) -> Option<(u8, u32)> {
        made.err()
            .map(|refusal| (refusal.number(), refusal.place()))
    }

    // A join of multiples: two of the orders q and r with so many kinds each.
    fn joined(q: u32, m: u8, r: u32, n: u8) -> Result<Join<Multiples, Multiples>, Refusal> {
        Join::new(Multiples::new(q, 2, m)?, Multiples::new(r, 2, n)?)
    }

    // The last is of a residue group of order 13 and the circle group of order 11.
    #[test]
    fn refused_joins(rt: HostRuntime) -> Result<(), Fail> {
        assert_eq!(rt; told(joined(11, 200, 11, 55)), None);
        assert_eq!(rt; told(joined(11, 200, 11, 56)), Some((5, 2)));
        assert_eq!(rt; told(joined(11, 255, 11, 255)), Some((5, 2)));
        assert_eq!(rt; told(joined(11, 1, 101, 1)), Some((5, 1)));
        assert_eq!(rt; told(joined(101, 200, 11, 200)), Some((5, 1)));
        let other = ResidueGroup::new(13, 53, Residue::new(16), Residue::new(28))?;
        assert_eq!(rt; told(supplied(other, circle()?)), Some((5, 1)));
        Ok(())
    }

    #[test]
    fn refused_multiples(rt: HostRuntime) {
        assert_eq!(rt; told(Multiples::new(101, 100, 1)), None);
        assert_eq!(rt; told(Multiples::new(101, 101, 1)), Some((4, 3)));
        assert_eq!(rt; told(Multiples::new(101, 0, 1)), Some((4, 3)));
        assert_eq!(rt; told(Multiples::new(7, 1, 1)), Some((1, 1)));
        assert_eq!(rt; told(Multiples::new(91, 0, 1)), Some((2, 1)));
    }

    // Three kinds modulo 101 with the base 7.
    #[test]
    fn multiples(rt: HostRuntime) -> Result<(), Fail> {
        let set = Multiples::new(101, 7, 3)?;
        assert_eq!(rt; key_image(&set, 2, key(9, 0)), word(25));
        assert_eq!(rt; key_image(&set, 4, key(9, 0)), Image::ZEROS);
        assert_eq!(rt; image_product(&set, 3, &word(100), &word(2)), word(1));
        assert_eq!(rt;
            image_product(&set, 3, &word(100), &word(101)),
            Image::ZEROS
        );
        Ok(())
    }

    // Three kinds modulo 11 with the base 7, then the single kind over the residue group.
    #[test]
    fn multiples_beside_single(rt: HostRuntime) -> Result<(), Fail> {
        let single = OneKind {
            group: residues()?,
            form: Single,
        };
        let set = Join::new(Multiples::new(11, 7, 3)?, single)?;
        assert_eq!(rt; key_image(&set, 3, key(5, 0)), word(6));
        assert_eq!(rt; key_image(&set, 4, key(5, 0)), word(12));
        assert_eq!(rt; key_image(&set, 5, key(5, 0)), Image::ZEROS);
        Ok(())
    }
}

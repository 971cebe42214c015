// Rule texts read, refused and written, each expectation worked out by hand.
#![tactic(auto)]

#[cfg(test)]
mod tests {
    use refusals::Refusal;
    use rules::*;
    use std::test::Fail;

    // Number and place of the refusal, or none for a text that reads.
    // kept: number and place are what users are told, so they are what is expected here
    fn told(text: &[u8]) -> Option<(u8, u32)> {
        let refusal = read(text).err()?;
        Some((refusal.number(), refusal.place()))
    }

    // How many entries and leaves a text has.
    fn counts(text: &[u8]) -> Result<(usize, usize), Refusal> {
        let table = read(text)?;
        Ok((table.len(), table.leaf_count()))
    }

    // A leaf's key and place.
    fn leaf_at(table: &Table, position: usize) -> Option<(u8, u8)> {
        match table.entry(position)? {
            Entry::Leaf { key, place } => Some((key, place)),
            Entry::Gate { .. } => None,
        }
    }

    // A gate's threshold, number of children, and one child's position.
    fn gate_at(table: &Table, position: usize, child: usize) -> Option<(u8, usize, u8)> {
        match table.entry(position)? {
            Entry::Leaf { .. } => None,
            Entry::Gate {
                threshold,
                children,
            } => Some((threshold, children.len(), *children.get(child)?)),
        }
    }

    #[test]
    fn lengths(rt: HostRuntime) {
        assert!(rt; told(b"") == Some((6, 0)));
        assert!(rt; told(&[b'K'; 241]) == Some((6, 0)));
        assert!(rt; told(&[b'K'; 240]) == Some((7, 1)));
    }

    #[test]
    fn key_numbers(rt: HostRuntime) {
        assert!(rt; told(b"K1") == None);
        assert!(rt; told(b"K255") == None);
        assert!(rt; told(b"K256") == Some((8, 1)));
        assert!(rt; told(b"K01") == Some((8, 1)));
        assert!(rt; told(b"K0") == Some((8, 1)));
        assert!(rt; told(b"K1234") == Some((8, 1)));
        assert!(rt; told(b"K") == Some((7, 1)));
        assert!(rt; told(b"Kx") == Some((7, 1)));
        assert!(rt; told(b"any(K1,K300)") == Some((8, 8)));
    }

    #[test]
    fn heads(rt: HostRuntime) {
        assert!(rt; told(b"k1") == Some((7, 0)));
        assert!(rt; told(b"a") == Some((7, 1)));
        assert!(rt; told(b"al(K1,K2)") == Some((7, 2)));
        assert!(rt; told(b"any") == Some((7, 3)));
        assert!(rt; told(b"2xf(K1,K2)") == Some((7, 1)));
        assert!(rt; told(b"2o(K1,K2)") == Some((7, 2)));
        assert!(rt; told(b"0of(K1,K2)") == Some((8, 0)));
        assert!(rt; told(b"1of(K1,K2)") == Some((8, 0)));
        assert!(rt; told(b"8of(K1,K2)") == Some((8, 0)));
        assert!(rt; told(b"any(K1,9of(K2,K3))") == Some((8, 7)));
    }

    #[test]
    fn items(rt: HostRuntime) {
        assert!(rt; told(b"all()") == Some((7, 4)));
        assert!(rt; told(b"all(K1)") == Some((9, 6)));
        assert!(rt; told(b"any(K1,any(K2))") == Some((9, 13)));
        assert!(rt; told(b"any(K1 ,K2)") == Some((7, 6)));
        assert!(rt; told(b"any(K1,K2") == Some((7, 9)));
        assert!(rt; told(b"any(K1,K2)K3") == Some((7, 10)));
        assert!(rt; told(b"2of(K1,K2)") == Some((9, 9)));
        assert!(rt; told(b"2of(K1,K2,K3)") == None);
        assert!(rt; told(b"7of(K1,K1,K1,K1,K1,K1,K1)") == Some((9, 24)));
        assert!(rt; told(b"7of(K1,K1,K1,K1,K1,K1,K1,K1)") == None);
        assert!(rt; told(b"any(K1,K1,K1,K1,K1,K1,K1,K1,x") == Some((9, 27)));
    }

    // Where an item starts: no item at all, then too deep or too many keys, then the digit.
    #[test]
    fn depths(rt: HostRuntime) {
        assert!(rt; told(b"any(any(any(any(any(any(any(any(x") == Some((7, 32)));
        assert!(rt; told(b"any(any(any(any(any(any(any(any(") == Some((7, 32)));
        assert!(rt; told(b"any(any(any(any(any(any(any(any(K0") == Some((9, 32)));
        assert!(rt; told(b"any(any(any(any(any(any(any(any(a") == Some((9, 32)));
        assert!(rt; told(b"any(any(any(any(any(any(any(any(9") == Some((9, 32)));
        assert!(rt; told(b"any(any(any(any(any(any(any(9") == Some((8, 28)));
    }

    #[test]
    fn seventeenth_keys(rt: HostRuntime) {
        assert!(rt;
            told(b"any(all(K1,K1,K1,K1,K1,K1,K1,K1),all(K1,K1,K1,K1,K1,K1,K1,K1),x")
                == Some((7, 62))
        );
        assert!(rt;
            told(b"any(all(K1,K1,K1,K1,K1,K1,K1,K1),all(K1,K1,K1,K1,K1,K1,K1,K1),K0")
                == Some((9, 62))
        );
        assert!(rt;
            told(b"any(all(K1,K1,K1,K1,K1,K1,K1,K1),all(K1,K1,K1,K1,K1,K1,K1,K1),9")
                == Some((8, 62))
        );
    }

    // The widest, the deepest, the longest (154 bytes), and one that is 8 deep with 31 entries.
    #[test]
    fn largest(rt: HostRuntime) {
        assert!(rt;
            counts(b"any(all(K1,K1,K1,K1,K1,K1,K1,K1),all(K1,K1,K1,K1,K1,K1,K1,K1))")
                == Ok((19, 16))
        );
        assert!(rt;
            counts(b"any(K1,any(K1,any(K1,any(K1,any(K1,any(K1,any(K1,K1)))))))") == Ok((15, 8))
        );
        assert!(rt;
            counts(
                b"all(all(all(all(K255,K255),all(K255,K255)),all(all(K255,K255),all(K255,K255))),all(all(all(K255,K255),all(K255,K255)),all(all(K255,K255),all(K255,K255))))",
            ) == Ok((31, 16))
        );
        assert!(rt;
            counts(
                b"any(K1,any(K1,any(K1,all(all(all(all(K1,K1),all(K1,K1)),all(all(K1,K1),all(K1,K1))),all(all(all(K1,K1),all(K1,K1)),K1)))))",
            ) == Ok((31, 16))
        );
    }

    #[test]
    fn entries(rt: HostRuntime) -> Result<(), Fail> {
        let table = read(b"2of(K7,K22,any(K3,K4))")?;
        assert!(rt; table.len() == 6 && table.leaf_count() == 4);
        assert!(rt; gate_at(&table, 0, 0) == Some((2, 3, 1)));
        assert!(rt; gate_at(&table, 0, 1) == Some((2, 3, 2)));
        assert!(rt; gate_at(&table, 0, 2) == Some((2, 3, 3)));
        assert!(rt; leaf_at(&table, 1) == Some((7, 4)));
        assert!(rt; leaf_at(&table, 2) == Some((22, 7)));
        assert!(rt; gate_at(&table, 3, 0) == Some((1, 2, 4)));
        assert!(rt; gate_at(&table, 3, 1) == Some((1, 2, 5)));
        assert!(rt; leaf_at(&table, 4) == Some((3, 15)));
        assert!(rt; leaf_at(&table, 5) == Some((4, 18)));
        assert!(rt; table.entry(6).is_none());
        Ok(())
    }

    #[test]
    fn written_again(rt: HostRuntime) -> Result<(), Fail> {
        let table = read(b"2of(K7,K22,any(K3,K4))")?;
        assert!(rt; text_length(&table) == 22);
        let mut short = [7u8; 21];
        let refused = write(&table, &mut short);
        assert!(rt; refused.is_err() && short[0] == 7 && short[20] == 7);
        let mut out = [0u8; 22];
        assert!(rt; write(&table, &mut out).is_ok());
        assert!(rt; out == *b"2of(K7,K22,any(K3,K4))");
        assert!(rt; reread(&table, &mut out).is_ok());
        let mut again = [0u8; 9];
        assert!(rt; rewrite(b"all(K1,K)", &mut again).is_err());
        assert!(rt; rewrite(b"all(K1,2)", &mut again).is_err() && again[0] == 0);
        Ok(())
    }
}

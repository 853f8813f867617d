// Tests of chains. Their own crate, since a crate with tests is proved twice.
#![tactic(auto)]

#[cfg(test)]
mod tests {
    use chains::{ChainFault, chain};
    use std::test::Fail;

    #[test]
    fn places_of_each_key(rt: HostRuntime) -> Result<(), Fail> {
        let chains = chain(rt.alloc(), &[2, 0, 2, 1, 2], 4)?;
        assert_eq!(rt; chains.first.as_slice(), [1, 3, 0, 5].as_slice());
        assert_eq!(rt; chains.next.as_slice(), [2, 5, 4, 5, 5].as_slice());
        Ok(())
    }

    #[test]
    fn key_that_is_the_count(rt: HostRuntime) {
        let chains = chain(rt.alloc(), &[0, 4, 1], 4);
        assert_eq!(rt; chains, Err(ChainFault::HighKey));
    }

    #[test]
    fn as_many_keys_as_may_be(rt: HostRuntime) -> Result<(), Fail> {
        let mut keys = vec![in rt.alloc(); 0u16; 65535]?;
        let chains = chain(rt.alloc(), keys.as_slice(), 1)?;
        assert_eq!(rt; chains.next.len(), 65535);
        keys.push(1)?;
        let chains = chain(rt.alloc(), keys.as_slice(), 1);
        assert_eq!(rt; chains, Err(ChainFault::ManyKeys));
        Ok(())
    }
}

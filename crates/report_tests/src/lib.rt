// Tests of the lines, byte by byte. Their own crate, since a crate with tests is proved twice.
#![tactic(auto)]

#[cfg(test)]
mod tests {
    use model::counts::Counts;
    use model::refusal::{Layer, Refusal};
    use report::lines::{counts_line, refusal_line};
    use report::short::ShortBuffer;

    #[test]
    fn refusal_and_the_bytes_behind(rt: HostRuntime) {
        let mut out = [46u8; 30];
        let refusal = Refusal {
            number: 10,
            line: 3,
            layer: Layer::Statement,
        };
        assert_eq!(rt; refusal_line(&mut out, refusal), Ok(28));
        assert!(rt; &out[..] == b"refused 10 line 3 statement\n..".as_slice());
    }

    #[test]
    fn large_counts_fit_exactly(rt: HostRuntime) {
        let mut out = [46u8; 46];
        let counts = Counts {
            nets: 4294967295,
            inputs: 0,
            outputs: 9,
            pins: 65536,
        };
        assert_eq!(rt; counts_line(&mut out, counts), Ok(46));
        assert!(rt; &out[..] == b"nets 4294967295 inputs 0 outputs 9 pins 65536\n".as_slice());
    }

    #[test]
    fn a_byte_too_short_stays(rt: HostRuntime) {
        let mut out = [46u8; 22];
        let refusal = Refusal {
            number: 12,
            line: 0,
            layer: Layer::Host,
        };
        assert_eq!(rt; refusal_line(&mut out, refusal), Err(ShortBuffer));
        assert!(rt; &out[..] == b"......................".as_slice());
    }

    #[test]
    fn a_short_buffer_is_refused_by_the_host(rt: HostRuntime) {
        let refusal = Refusal {
            number: 1,
            line: 0,
            layer: Layer::Host,
        };
        assert_eq!(rt; Refusal::from(ShortBuffer), refusal);
    }
}

// Tests of vector files, byte by byte. Their own crate, since a crate with tests is proved twice.
#![tactic(auto)]

#[cfg(test)]
mod tests {
    use report::short::ShortBuffer;
    use vector_file::entry::Entry;
    use vector_file::file::VectorFile;

    #[test]
    fn two_vectors_and_the_bytes_behind(rt: HostRuntime) {
        let deck = [
            Entry {
                vector: 2,
                response: 0,
            },
            Entry {
                vector: 1,
                response: 1,
            },
        ];
        let file = VectorFile {
            inputs: 2,
            outputs: 1,
            deck: &deck,
        };
        let mut out = [46u8; 10];
        assert_eq!(rt; file.write(&mut out), Ok(8));
        assert!(rt; &out[..] == b"\x01\x02\x01\x02\x02\x00\x01\x01..".as_slice());
    }

    #[test]
    fn long_numbers_fit_exactly(rt: HostRuntime) {
        let deck = [Entry {
            vector: 300,
            response: u64::MAX,
        }];
        let file = VectorFile {
            inputs: 127,
            outputs: 128,
            deck: &deck,
        };
        let mut out = [46u8; 17];
        assert_eq!(rt; file.write(&mut out), Ok(17));
        assert!(rt;
            &out[..]
                == b"\x01\x7f\x80\x01\x01\xac\x02\xff\xff\xff\xff\xff\xff\xff\xff\xff\x01".as_slice()
        );
    }

    #[test]
    fn a_byte_too_short_stays(rt: HostRuntime) {
        let file = VectorFile {
            inputs: 0,
            outputs: 0,
            deck: &[],
        };
        let mut out = [46u8; 3];
        assert_eq!(rt; file.write(&mut out), Err(ShortBuffer));
        assert!(rt; &out[..] == b"...".as_slice());
    }
}
